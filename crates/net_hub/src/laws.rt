//! Laws of what events give: each function does nothing, and its contract is the law.

ghost use Rattle.std.specs.Prelude.{◌≡◌, ◌⊎◌, ℕ, List, Option, map};
ghost use Rattle.dict_catalogue.specs.Steps.{Catalogue};
ghost use Rattle.net_hub.specs.Holding.{Holding};
ghost use Rattle.net_hub.specs.Events.{Happening};
ghost use Rattle.net_hub.specs.Undisturbed.{Served, IsServed};
ghost use Rattle.net_hub.specs.Runs.{State, Standing, Accepted, Leads, IsServedEvent, IsUndisturbed, HasDisturbance, GoWell, GotSame, event_asked, events_of};
ghost use Rattle.net_hub.specs.Observations.{Observation, AreObservations};
ghost use Rattle.net_hub.specs.Durable.{LeavesWhatItShows, StayOpen, OneIsClosed};

use dict_session::spoken_or_unavailable;
use http_service::one_answer;

/// Where nothing fails, what an event gives is a function of the host, what is held of its connection, the event and
/// the catalogue: how it is answered, what it puts, and the catalogue after it.
pub fn one_served()
    ensures { (host : List ℕ) (M : Catalogue) (held : Option Holding) (what : Happening) (a b : Served) → IsServed host M held what a → IsServed host M held what b → a ≡ b }
{
    one_answer();
}

/// Each event of a run gave just that, or its sink failed, or the desk did behind the first octet of an answer, or the
/// answer for want of memory stands in place of one.
pub fn undisturbed_or_not()
    ensures { (state : State) (one : Accepted) → IsServedEvent state one → IsUndisturbed state one ⊎ HasDisturbance state one }
{
    spoken_or_unavailable();
}

/// What one connection gets, whatever the others do: in two runs that begin with the same held of it, and in which its
/// events are the same, come at the same catalogues and are disturbed by nothing, they are answered alike, put the same
/// octets and leave the same catalogue, and in the end the same is held of it.
pub fn same_for_both()
    ensures got { (id : ℕ) (a b a' b' : State) (p q p' q' : Standing) (events others : List Accepted) → Leads a p events a' p' → Leads b q others b' q'
        → a.host ≡ b.host → a.held id ≡ b.held id → GoWell id a events → GoWell id b others
        → map event_asked (events_of id events) ≡ map event_asked (events_of id others) → GotSame (events_of id events) (events_of id others) }
    ensures held { (id : ℕ) (a b a' b' : State) (p q p' q' : Standing) (events others : List Accepted) → Leads a p events a' p' → Leads b q others b' q'
        → a.host ≡ b.host → a.held id ≡ b.held id → GoWell id a events → GoWell id b others
        → map event_asked (events_of id events) ≡ map event_asked (events_of id others) → a'.held id ≡ b'.held id }
{
    one_served();
}

/// The same by the commands between its events: a connection sees each run as turns, its own events and the commands
/// that change the catalogue between them. Two runs that begin at the same catalogue with the same held of it, that it
/// sees as the same turns, and in which nothing disturbs it, ask it the same at the same catalogues. So it is answered
/// alike, and gets the same octets.
pub fn same_by_turns()
    ensures some { (id : ℕ) (a a' : State) (p p' : Standing) (events : List Accepted) → Leads a p events a' p' → (turns : List Observation) × AreObservations id events turns }
    ensures asked { (id : ℕ) (a b a' b' : State) (p q p' q' : Standing) (events others : List Accepted) (turns : List Observation) → Leads a p events a' p' → Leads b q others b' q'
        → a.host ≡ b.host → a.held id ≡ b.held id → p.catalogue ≡ q.catalogue → GoWell id a events → GoWell id b others
        → AreObservations id events turns → AreObservations id others turns → map event_asked (events_of id events) ≡ map event_asked (events_of id others) }
    ensures got { (id : ℕ) (a b a' b' : State) (p q p' q' : Standing) (events others : List Accepted) (turns : List Observation) → Leads a p events a' p' → Leads b q others b' q'
        → a.host ≡ b.host → a.held id ≡ b.held id → p.catalogue ≡ q.catalogue → GoWell id a events → GoWell id b others
        → AreObservations id events turns → AreObservations id others turns → GotSame (events_of id events) (events_of id others) }
{
    one_served();
    same_for_both();
}

/// What was acknowledged is what a stop leaves. Where a stop leaves what a desk shows, and no other catalogue, events behind each of which
/// the desk is open lead to where that is so again. Where it isn't, the desk is closed behind one of them.
pub fn acknowledged_is_left()
    ensures left { (state end : State) (stands ends : Standing) (events : List Accepted) → Leads state stands events end ends → LeavesWhatItShows stands → StayOpen events → LeavesWhatItShows ends }
    ensures or_closed { (state end : State) (stands ends : Standing) (events : List Accepted) → Leads state stands events end ends → LeavesWhatItShows stands → LeavesWhatItShows ends ⊎ OneIsClosed events }
{}
