// Finds the form of a path.
ghost use Rattle.std.specs.Prelude.{◌≡◌, ℕ, List, IfOk, MatchOption};
ghost use Rattle.http_request.specs.Paths.{IsPath, before, path_after};
ghost use Rattle.http_request.specs.Rows.{rows};
ghost use Rattle.http_request.specs.declared.route_kinds.Route as routes;

use crate::route_kinds::{FoundRoute, Route};
use matchit::{InsertError, Router};
use std::alloc::{AllocError, Global};

// The rows of the router.
fn router(alloc: Global) -> Result<Router<Route>, InsertError>
    ensures { IfOk result (λ router. router ≡ rows) }
{
    let mut router = Router::new(alloc);
    router.insert("/databases", Route::Databases)?;
    router.insert("/databases/{name}", Route::Database)?;
    router.insert("/databases/{name}/rollback", Route::Rollback)?;
    router.insert("/databases/{name}/place", Route::Place)?;
    router.insert("/virtual/{name}", Route::Virtual)?;
    Ok(router)
}

/// The forms of paths that are served.
#[derive(Drop)]
pub struct Routes {
    router: Router<Route>,
    ghost holds: { router ≡ rows },
}

// What stands in the paths of a form before the name and after it.
fn around(route: Route) -> (&'static str, &'static str)
    ensures before { result.0.now ≡ before route }
    ensures after { result.1.now ≡ path_after route }
{
    match route {
        Route::Databases => ("/databases", ""),
        Route::Database => ("/databases/", ""),
        Route::Rollback => ("/databases/", "/rollback"),
        Route::Place => ("/databases/", "/place"),
        Route::Virtual => ("/virtual/", ""),
    }
}

impl Routes {
    /// The five forms. Want of memory is the only error.
    pub fn new(alloc: Global) -> Result<Self, AllocError> {
        match router(alloc) {
            Ok(router) => Ok(Routes { router }),
            Err(_) => Err(AllocError),
        }
    }

    /// The form of a path and the name in it, if it has one of the forms. It takes no memory.
    pub fn find<'p>(&self, path: &'p str) -> Option<FoundRoute<'p>>
        ensures { MatchOption result ((route : routes.Route) (name : List ℕ) → ¬ IsPath path.now route name) (λ found. IsPath path.now found.route found.name.now) }
    {
        let Ok(found) = self.router.at(path) else {
            return None;
        };
        let route = *found.value;
        let (before, after) = around(route);
        let Some(rest) = path.strip_prefix(before) else {
            unreachable!()
        };
        let Some(name) = rest.strip_suffix(after) else {
            unreachable!()
        };
        Some(FoundRoute { route, name })
    }
}
