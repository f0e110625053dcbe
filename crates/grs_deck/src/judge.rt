//! What is wrong with a statement, where a deck has been read so far. Each test is one kind of fault.
ghost use Rattle.std.specs.Prelude.{◌≡◌, is_some};
ghost use Rattle.grs_wire.specs.Decks.{Fits};
ghost use Rattle.grs_deck.specs.Places.{event_in, place_in, place_ordered};
ghost use Rattle.grs_deck.specs.Grow.{shows};
ghost use Rattle.grs_deck.specs.Judge.{is_too_long, has_long_name, has_long_order, has_bad_name, is_repeated, is_idle, is_away, is_misplaced, is_list_full, is_full, removes_unknown, is_unknown, verdict};

use crate::places::{
    desk_now, job_place, jobs_now, name_now, system_place, task_count, task_place, tasks_now,
};
use deck_form::{EventAct, GivenOrder, Stmt, SystemNames};
use grs_base::{
    Kind, Lists, MOST_ENTRIES, MOST_JOBS, MOST_NAME_BYTES, MOST_SYSTEMS, MOST_TASKS, Which,
};
use grs_wire::{Deck, Event, SystemDef};
use job_syntax::LineAsk;

/// The most commands at the desk of a system.
const MOST_COMMANDS: usize = 64;

/// A deck so far.
#[derive(Drop)]
pub struct Draft<'t> {
    pub deck: Deck,
    /// The names that SYSTEM statements give, also those further on.
    pub names: SystemNames<'t>,
    /// Whether any statement was read.
    pub begun: bool,
    /// Whether SCHEDULE was read.
    pub scheduled: bool,
    /// How many task lines may still follow.
    pub room: u32,
    /// How many of them may show something.
    pub displays: u32,
}

fn is_too_long(name: &[u8]) -> bool
    ensures { result ≡ is_too_long name.now }
{
    name.len() > MOST_NAME_BYTES
}

fn has_long_name(act: &EventAct<'_>) -> bool
    ensures { result ≡ has_long_name act.now }
{
    match act {
        EventAct::Task { job, task } => is_too_long(job.bytes()) || is_too_long(task.bytes()),
        EventAct::Send { job, task } => is_too_long(job.bytes()) || is_too_long(task.bytes()),
        EventAct::Purge(name) => is_too_long(name.bytes()),
        _ => false,
    }
}

fn has_long_order(order: &GivenOrder<'_>) -> bool
    ensures { result ≡ has_long_order order.now }
{
    match order {
        GivenOrder::Star => false,
        GivenOrder::Vary(name) => is_too_long(name.bytes()),
    }
}

fn has_bad_name(st: &Stmt<'_>) -> bool
    ensures { result ≡ has_bad_name st.now }
{
    match st {
        Stmt::System(n) => is_too_long(n.bytes()),
        Stmt::Job(n) => is_too_long(n.bytes()),
        Stmt::Task(n) => is_too_long(n.bytes()),
        Stmt::Rnldef(rnldef) => rnl_syntax::has_bad_name(rnldef),
        Stmt::Line(line_ask) => job_syntax::has_bad_name(line_ask),
        Stmt::Command(command) => has_long_order(&command.order),
        Stmt::Event { system, act } => is_too_long(system.bytes()) || has_long_name(act),
        _ => false,
    }
}

fn is_there(place: Option<usize>) -> bool
    ensures { result ≡ is_some place }
{
    match place {
        Some(_) => true,
        None => false,
    }
}

fn is_repeated(draft: &Draft<'_>, st: &Stmt<'_>) -> bool
    ensures { result ≡ is_repeated draft.now st.now }
{
    let systems = draft.deck.systems.as_slice();
    match st {
        Stmt::System(n) => is_there(system_place(systems, n.bytes())),
        Stmt::Job(n) => is_there(job_place(jobs_now(systems), n.bytes())),
        Stmt::Task(n) => is_there(task_place(tasks_now(jobs_now(systems)), n.bytes())),
        _ => false,
    }
}

/// Whether no task stands that a line could belong to.
fn is_idle(systems: &[SystemDef]) -> bool
    ensures { result ≡ is_idle systems.now }
{
    tasks_now(jobs_now(systems)).len() == 0
}

/// Whether no system stands whose desk a command could belong to, or a job of it stands already.
fn is_away(systems: &[SystemDef]) -> bool
    ensures { result ≡ is_away systems.now }
{
    systems.len() == 0 || jobs_now(systems).len() != 0
}

fn is_misplaced(draft: &Draft<'_>, st: &Stmt<'_>) -> bool
    ensures { result ≡ is_misplaced draft.now st.now }
{
    let systems = draft.deck.systems.as_slice();
    match st {
        Stmt::Complex(_) => draft.begun,
        Stmt::Rnldef(_) => systems.len() != 0,
        Stmt::System(_) => false,
        Stmt::Job(_) => systems.len() == 0,
        Stmt::Task(_) => jobs_now(systems).len() == 0,
        Stmt::Line(_) => is_idle(systems),
        Stmt::Command(_) => is_away(systems),
        Stmt::Schedule => systems.len() == 0,
        Stmt::Event { .. } => false,
    }
}

/// Whether a name list has as many entries as it may have.
fn is_list_full(lists: &Lists, which: Which) -> bool
    ensures { result ≡ is_list_full lists.now which }
{
    let entries = match which {
        Which::Incl => lists.incl.len(),
        Which::Excl => lists.excl.len(),
        Which::Con => lists.con.len(),
    };
    MOST_ENTRIES <= entries
}

/// Whether a task line shows something.
pub(crate) fn shows(line_ask: &LineAsk<'_>) -> bool
    ensures { result ≡ shows line_ask.now }
{
    matches!(line_ask, LineAsk::Gqscan(_) | LineAsk::Display(_))
}

fn is_full(draft: &Draft<'_>, st: &Stmt<'_>) -> bool
    requires { Fits draft.now.deck.systems }
    ensures { result ≡ is_full draft.now st.now }
{
    let systems = draft.deck.systems.as_slice();
    match st {
        Stmt::Rnldef(rnldef) => is_list_full(&draft.deck.lists, rnldef.which),
        Stmt::System(_) => MOST_SYSTEMS <= systems.len(),
        Stmt::Job(_) => MOST_JOBS <= jobs_now(systems).len(),
        Stmt::Task(_) => MOST_TASKS <= task_count(jobs_now(systems)),
        Stmt::Line(line_ask) => draft.room == 0 || shows(line_ask) && draft.displays == 0,
        Stmt::Command(_) => MOST_COMMANDS <= desk_now(systems).len(),
        _ => false,
    }
}

/// Whether the removal is commanded of the system at whose desk that is, or of one that the deck doesn't have.
fn removes_unknown(draft: &Draft<'_>, order: &GivenOrder<'_>, place: Option<usize>) -> bool
    requires { place ≡ place_ordered draft.now.names order.now }
    ensures { result ≡ removes_unknown draft.now order.now }
{
    match order {
        GivenOrder::Star => false,
        GivenOrder::Vary(name) => {
            name_now(draft.deck.systems.as_slice()) == name.bytes() || place.is_none()
        }
    }
}

/// Whether a statement says a name that none gives, or that may not stand there, where `event` is the event that it is, and
/// a name that its command says has this place.
fn is_unknown(draft: &Draft<'_>, st: &Stmt<'_>, event: Option<Event>, place: Option<usize>) -> bool
    requires event { event ≡ event_in draft.now.deck.systems st.now }
    requires place { place ≡ place_in draft.now.names st.now }
    ensures { result ≡ is_unknown draft.now st.now }
{
    match st {
        Stmt::Event { .. } => event.is_none(),
        Stmt::Command(command) => removes_unknown(draft, &command.order, place),
        _ => false,
    }
}

/// The least kind that applies to a statement of the right form, where `event` is the event that it is, and a name that its
/// command says has this place.
pub fn verdict(
    draft: &Draft<'_>,
    st: &Stmt<'_>,
    event: Option<Event>,
    place: Option<usize>,
) -> Option<Kind>
    requires systems { Fits draft.now.deck.systems }
    requires event { event ≡ event_in draft.now.deck.systems st.now }
    requires place { place ≡ place_in draft.now.names st.now }
    ensures { result ≡ verdict draft.now st.now }
{
    if has_bad_name(st) {
        Some(Kind::NameLength)
    } else if is_repeated(draft, st) {
        Some(Kind::Repeated)
    } else if is_misplaced(draft, st) {
        Some(Kind::OutOfPlace)
    } else if is_full(draft, st) {
        Some(Kind::TooMany)
    } else if is_unknown(draft, st, event, place) {
        Some(Kind::UnknownName)
    } else {
        None
    }
}
