//! What a call would be answered, told before it is made: no part of the program asks that yet. A removal, with the
//! Turn that gets its entry; and the change to star mode. A value that is dear to drop is dropped on one path alone.
ghost use Rattle.std.specs.Prelude.{◌≡◌, ◌<◌, [], ◌∷◌, length, IfOk};
ghost use Rattle.grs_base.specs.declared.resource.SysId.{SysId as SysIdSpec};
ghost use Rattle.grs_medium.specs.Medium.{MediumState, systems_of};
ghost use Rattle.grs_medium.specs.Apply.{ActFits, MayCall};

use grs_base::{Code, List, NoMemory, Qname, Res, Rname, SysId, TaskId};
use grs_medium::Medium;
use grs_wire::{Act, Answer, Call, Mail, Reply, Req, Want};
use std::alloc::Global;
use std::test::Fail;

/// A reply in brief: how many entries a Turn gives, whether a request is taken, and the systems that have interest in what
/// a manager keeps.
#[derive(Clone, Copy, Debug, PartialEq, Eq)]
enum Brief {
    Turned(usize),
    Switched,
    Already,
    Sent,
    Asked,
    Empty,
    Settled,
    Told,
    Kept(u32),
    Purged,
    Resting,
    Other,
}

/// What a call would be answered, and whether it changes the medium.
type Seen = (Brief, bool);

fn in_brief(reply: &Reply) -> Brief {
    match reply {
        Reply::Turned { entries, .. } => Brief::Turned(entries.len()),
        Reply::Switched => Brief::Switched,
        Reply::Already => Brief::Already,
        Reply::Sent => Brief::Sent,
        Reply::Taken {
            mail: Mail::Request { .. },
        } => Brief::Asked,
        Reply::Empty => Brief::Empty,
        Reply::Settled => Brief::Settled,
        Reply::Told => Brief::Told,
        Reply::Kept { mask } => Brief::Kept(*mask),
        Reply::Purged => Brief::Purged,
        Reply::Resting => Brief::Resting,
        _ => Brief::Other,
    }
}

fn previewed(medium: &Medium, caller: SysId, call: &Call) -> Result<Seen, NoMemory>
    requires call { MayCall medium.now.state caller call.now }
{
    let (reply, changes) = medium.preview(caller, call)?;
    Ok((in_brief(&reply), changes))
}

/// A call that isn't made is let go.
fn give_up(_call: Call) -> NoMemory {
    NoMemory
}

/// A reply is let go, and told in brief.
fn let_go(reply: Reply) -> Brief {
    in_brief(&reply)
}

/// What a call is answered.
fn made(medium: &mut Medium, caller: SysId, call: Call) -> Result<Brief, NoMemory>
    requires call { MayCall medium.old.state caller call }
    ensures { systems_of medium.new.state ≡ systems_of medium.old.state }
{
    match medium.reserve(caller, &call) {
        Ok(()) => Ok(let_go(medium.apply(caller, call))),
        Err(NoMemory) => Err(give_up(call)),
    }
}

/// A resource of the whole complex.
fn shared(alloc: Global) -> Result<Res, Fail> {
    let q = Qname::new(alloc, b"A")?;
    let r = Rname::new(alloc, b"TWO")?;
    Ok(Res::Systems { q, r })
}

/// A request of system 0.
fn request(alloc: Global) -> Result<Req, Fail> {
    let res = shared(alloc)?;
    Ok(Req {
        task: TaskId {
            system: SysId(0),
            job: 0,
            task: 0,
        },
        want: Want::Release { res },
    })
}

/// This request alone.
fn alone(alloc: Global, req: Req) -> Result<List<Req>, NoMemory>
    ensures { IfOk result (λ out. length out ≡ 1) }
{
    let mut out = List::new(alloc);
    out.push(req)?;
    Ok(out)
}

/// What a call would be answered; it isn't made.
fn shown(medium: &Medium, caller: SysId, call: Call) -> Result<Seen, NoMemory>
    requires call { MayCall medium.now.state caller call }
{
    previewed(medium, caller, &call)
}

/// System 0 puts in a request.
fn put(alloc: Global, medium: &mut Medium) -> Result<(), Fail>
    requires { systems_of medium.old.state ≡ 2 }
    ensures { systems_of medium.new.state ≡ 2 }
{
    let out = alone(alloc, request(alloc)?)?;
    let act = Act::Turn { out };
    made(medium, SysId(0), Call { known: 0, act })?;
    Ok(())
}

/// What system 1 would be answered at its Turn.
fn turn_of(alloc: Global, medium: &Medium) -> Result<Seen, NoMemory>
    requires { systems_of medium.now.state ≡ 2 }
{
    let out = List::new(alloc);
    let act = Act::Turn { out };
    let call = Call { known: 0, act };
    previewed(medium, SysId(1), &call)
}

/// What system 0 would be answered if it removed system 1.
fn purge_of(medium: &Medium) -> Result<Seen, NoMemory>
    requires { systems_of medium.now.state ≡ 2 }
{
    let target = SysId(1);
    let act = Act::Purge { target };
    shown(medium, SysId(0), Call { known: 0, act })
}

/// System 0 removes system 1.
fn remove(medium: &mut Medium) -> Result<(), NoMemory>
    requires { systems_of medium.old.state ≡ 2 }
    ensures { systems_of medium.new.state ≡ 2 }
{
    let target = SysId(1);
    let act = Act::Purge { target };
    made(medium, SysId(0), Call { known: 0, act })?;
    Ok(())
}

/// What system 0 is answered at its Turn, once it knows that system 1 is removed.
fn turn_after(alloc: Global, medium: &mut Medium) -> Result<Brief, NoMemory>
    requires { systems_of medium.old.state ≡ 2 }
{
    let out = List::new(alloc);
    let act = Act::Turn { out };
    made(medium, SysId(0), Call { known: 2, act })
}

fn calls_seen(alloc: Global, medium: &mut Medium) -> Result<(Seen, Seen, Brief), Fail>
    requires { systems_of medium.old.state ≡ 2 }
{
    put(alloc, medium)?;
    let turn = turn_of(alloc, medium)?;
    let purge = purge_of(medium)?;
    remove(medium)?;
    Ok((turn, purge, turn_after(alloc, medium)?))
}

fn two_systems(alloc: Global) -> Result<(Seen, Seen, Brief), Fail> {
    let mut medium = Medium::new(alloc, 2, 1, false)?;
    calls_seen(alloc, &mut medium)
}

#[test]
fn tells_before_and_removes(rt: HostRuntime) -> Result<(), Fail> {
    let (turn, purge, given) = two_systems(rt.alloc())?;
    assert_eq!(rt; turn, (Brief::Turned(1), true));
    assert_eq!(rt; purge, (Brief::Purged, true));
    // the request that came back without system 1, and the removal
    assert_eq!(rt; given, Brief::Turned(2));
    Ok(())
}

/// A system asks in star mode, on the one lock entry.
fn ask(alloc: Global, medium: &mut Medium, caller: SysId) -> Result<(), Fail>
    requires caller { caller.0 < 2 }
    requires systems { systems_of medium.old.state ≡ 2 }
    requires entries { length medium.old.state.words ≡ 1 }
    ensures { systems_of medium.new.state ≡ 2 }
{
    let req = request(alloc)?;
    let act = Act::Submit { entry: 0, req };
    made(medium, caller, Call { known: 0, act })?;
    Ok(())
}

const ASKER: TaskId = TaskId {
    system: SysId(1),
    job: 0,
    task: 0,
};

/// An answer to a task of system 1.
fn answered() -> Mail {
    Mail::Answered {
        task: ASKER,
        answer: Answer::Coded(Code::C00),
        rank: 2,
    }
}

/// Control for a task of system 1.
fn granted(alloc: Global) -> Result<Mail, Fail> {
    let res = shared(alloc)?;
    Ok(Mail::Granted { task: ASKER, res })
}

/// What system 1 would be answered if it asked again, and if it took a mail, of which it has none; and what system 0, which
/// manages the entry: by a Take, a Settle, a Tell, a Leave and a Rest.
fn shown_in_star(alloc: Global, medium: &Medium) -> Result<[Seen; 7], Fail>
    requires systems { systems_of medium.now.state ≡ 2 }
    requires entries { length medium.now.state.words ≡ 1 }
{
    let req = request(alloc)?;
    let act = Act::Submit { entry: 0, req };
    let asked = shown(medium, SysId(1), Call { known: 0, act })?;
    let act = Act::Take;
    let empty = shown(medium, SysId(1), Call { known: 0, act })?;
    let act = Act::Take;
    let taken = shown(medium, SysId(0), Call { known: 0, act })?;
    let to = SysId(1);
    let mail = answered();
    let act = Act::Settle { to, mail };
    let settled = shown(medium, SysId(0), Call { known: 0, act })?;
    let mail = granted(alloc)?;
    let act = Act::Tell { to, mail };
    let told = shown(medium, SysId(0), Call { known: 0, act })?;
    let act = Act::Leave { entry: 0 };
    let left = shown(medium, SysId(0), Call { known: 0, act })?;
    let act = Act::Rest;
    let rested = shown(medium, SysId(0), Call { known: 0, act })?;
    Ok([asked, empty, taken, settled, told, left, rested])
}

/// The same once both systems have asked, where the medium has as many lock words as it was given.
fn after_both(alloc: Global) -> Result<[Seen; 7], Fail> {
    let none = [(Brief::Other, false); 7];
    let mut medium = Medium::new(alloc, 2, 1, true)?;
    ask(alloc, &mut medium, SysId(0))?;
    if medium.words().len() != 1 {
        return Ok(none);
    }
    ask(alloc, &mut medium, SysId(1))?;
    if medium.words().len() != 1 {
        return Ok(none);
    }
    shown_in_star(alloc, &medium)
}

#[test]
fn tells_before_in_star_mode(rt: HostRuntime) -> Result<(), Fail> {
    assert_eq!(rt;
        after_both(rt.alloc())?,
        [
            (Brief::Sent, true),
            (Brief::Empty, false),
            (Brief::Asked, true),
            (Brief::Settled, true),
            (Brief::Told, true),
            (Brief::Kept(3), false),
            (Brief::Resting, true),
        ]
    );
    Ok(())
}

/// Who asks for the change to star mode, and what it is to be answered: a complex changes once.
type Change = (u8, Seen);

const CHANGES: [Change; 2] = [(1, (Brief::Switched, true)), (0, (Brief::Already, false))];

/// The word of an entry in which nobody has interest, alone.
fn no_interest(alloc: Global) -> Result<List<u32>, NoMemory>
    ensures { IfOk result (λ words. words ≡ 0 ∷ []) }
{
    let mut words = List::new(alloc);
    words.push(0)?;
    Ok(words)
}

fn change(alloc: Global) -> Result<Act, NoMemory>
    ensures { IfOk result (λ act. (m : MediumState) (c : SysIdSpec) → systems_of m ≡ 2 → length m.words ≡ 1 → ActFits m c act) }
{
    let words = no_interest(alloc)?;
    Ok(Act::Switch { words })
}

/// What a call would be answered, and what it is.
fn shown_and_made(medium: &mut Medium, caller: SysId, call: Call) -> Result<(Seen, Brief), NoMemory>
    requires { MayCall medium.old.state caller call }
    ensures { systems_of medium.new.state ≡ systems_of medium.old.state }
{
    match previewed(medium, caller, &call) {
        Ok(seen) => Ok((seen, made(medium, caller, call)?)),
        Err(NoMemory) => Err(give_up(call)),
    }
}

/// Whether a change is answered as it is to be.
fn is_right(alloc: Global, medium: &mut Medium, case: &Change) -> Result<bool, Fail>
    requires { systems_of medium.old.state ≡ 2 }
    ensures { systems_of medium.new.state ≡ 2 }
{
    let (caller, seen) = *case;
    if caller > 1 || medium.words().len() != 1 {
        return Ok(false);
    }
    let act = change(alloc)?;
    let answered = shown_and_made(medium, SysId(caller), Call { known: 0, act })?;
    Ok(answered == (seen, seen.0))
}

fn all_right(alloc: Global, cases: &[Change]) -> Result<bool, Fail> {
    let mut medium = Medium::new(alloc, 2, 1, false)?;
    for case in cases {
        if !is_right(alloc, &mut medium, case)? {
            return Ok(false);
        }
    }
    Ok(true)
}

#[test]
fn changes_to_star_mode(rt: HostRuntime) -> Result<(), Fail> {
    assert!(rt; all_right(rt.alloc(), &CHANGES)?);
    Ok(())
}
