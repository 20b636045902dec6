// A law of the definition.
ghost use Rattle.std.specs.Prelude.{◌≡◌, ℕ, List};
ghost use Rattle.http_request.specs.Paths.{IsPath};
ghost use Rattle.http_request.specs.declared.route_kinds.Route as routes;

/// A path has one form at most, with one name.
pub fn one_route()
    ensures route { (path : List ℕ) (a b : routes.Route) (s t : List ℕ) → IsPath path a s → IsPath path b t → a ≡ b }
    ensures name { (path : List ℕ) (a b : routes.Route) (s t : List ℕ) → IsPath path a s → IsPath path b t → s ≡ t }
{}
