//! A system's change to star mode, by its table of the Systems resources.
ghost use Rattle.std.specs.Prelude.{◌≡◌, ◌≢◌, ◌<◌, [], true, false, is_some, map, length, List, IfOk, OnOk};
ghost use Rattle.std.specs.List.{flat_map, range_with_len};
ghost use Rattle.std.specs.Option.{option_map};
ghost use Rattle.contention_mgr.specs.Manager.{managed_at};
ghost use Rattle.grs_base.specs.Limits.{most_commands};
ghost use Rattle.grs_node.specs.Change as change;
ghost use Rattle.grs_node.specs.Log.{stepped};
ghost use Rattle.grs_node.specs.Names.{names_of};
ghost use Rattle.grs_node.specs.Node as steps;
ghost use Rattle.grs_node.specs.Node.{are_of_system};
ghost use Rattle.grs_wire.specs.declared.request.Fixed.{Fixed};
ghost use Rattle.mode_migrate.specs.Migrate.{AreApart, AreLoadable, ranked_by};
ghost use Rattle.task_state.specs.View.{is_task};

use super::star::StarPart;
use super::state::NodeState;
use contention_mgr::Manager;
use grs_base::{Elem, List, NoMemory, Res, Row, SysId, TaskId};
use grs_wire::{Deck, Req, Said, Want};
use mode_migrate::{Roles, roles_of};
use star_client::Owes;
use std::alloc::Global;
use std::collections::VecDeque;
use system_purge::Gathers;
use task_state::{Asked, Showing, Tasks};

/// Whether a lock entry is one of these.
fn is_among(entries: &List<u32>, entry: u32) -> bool
    ensures { result ≡ change.is_among entries.now entry }
{
    entries.as_slice().iter().any(|other| *other == entry)
}

/// The manager takes an entry over, if it is to, with the entry's part.
fn load_if_managed(
    manager: &mut Manager,
    entry: u32,
    entries: u32,
    roles: &Roles,
) -> Result<(), NoMemory>
    requires count { length manager.old.entries ≡ entries }
    requires below { entry < entries }
    requires free { is_some (managed_at manager.old entry) ≡ false }
    requires parts { length roles.now.parts ≡ entries }
    requires rows { AreLoadable entries roles.now.parts }
    ensures { OnOk result (manager.new ≡ change.with_entry_by manager.old roles.now.managed roles.now.parts entry) }
{
    if is_among(&roles.managed, entry) {
        manager.load(entry, roles.part(entry))
    } else {
        Ok(())
    }
}

/// The manager of the entries that a system manages by its roles.
fn manager_by(
    alloc: Global,
    system: SysId,
    entries: u32,
    roles: &Roles,
) -> Result<Manager, NoMemory>
    requires entries { entries ≢ 0 }
    requires parts { length roles.now.parts ≡ entries }
    requires rows { AreLoadable entries roles.now.parts }
    ensures { IfOk result (λ manager. manager ≡ record { system = system; entries = map (change.entry_by_roles roles.now.managed roles.now.parts) (range_with_len 0 entries) }) }
{
    let mut manager = Manager::new(alloc, system, entries)?;
    for entry in 0..entries {
        load_if_managed(&mut manager, entry, entries, roles)?;
    }
    Ok(manager)
}

/// Of each lock entry, whether it is one of these.
#[tactic(auto, using(lock_structure::proofs::Ranges::ranges))]
fn flags_of(alloc: Global, among: &List<u32>, entries: u32) -> Result<Vec<bool>, NoMemory>
    ensures { IfOk result (λ flags. flags.items ≡ map (change.is_among among.now) (range_with_len 0 entries)) }
{
    let mut flags = Vec::new(alloc);
    for entry in 0..entries {
        if flags.push(is_among(among, entry)).is_err() {
            return Err(NoMemory);
        }
    }
    Ok(flags)
}

impl StarPart {
    /// The part of a system by its roles.
    fn by_roles(
        alloc: Global,
        system: SysId,
        entries: u32,
        roles: &Roles,
    ) -> Result<StarPart, NoMemory>
        requires entries { entries ≢ 0 }
        requires parts { length roles.now.parts ≡ entries }
        requires rows { AreLoadable entries roles.now.parts }
        ensures { IfOk result (λ part. part ≡ change.part_by_roles entries system roles.now.managed roles.now.interest roles.now.parts) }
    {
        Ok(StarPart {
            manager: manager_by(alloc, system, entries, roles)?,
            gathers: Gathers::new(alloc, entries)?,
            owes: Owes::new(alloc, entries)?,
            held: VecDeque::new(alloc),
            interest: flags_of(alloc, &roles.interest, entries)?,
        })
    }
}

/// A task's record of a resource gets a rank, where the task is of this system.
#[tactic(auto, using(crate::proofs::Kept::kept))]
fn rank(tasks: &mut Tasks, res: &Res, task: TaskId, rank: u64)
    ensures step { tasks.new ≡ change.with_rank_by tasks.old res.now task rank }
    ensures system { tasks.new.system ≡ tasks.old.system }
    ensures count { length tasks.new.tasks ≡ length tasks.old.tasks }
{
    if tasks.has(task) {
        tasks.set_rank(task, res, rank);
    }
}

/// The same of the elements of a list, with their ranks.
fn rank_list(tasks: &mut Tasks, res: &Res, elems: &[Elem], ranks: &[u64])
    ensures step { tasks.new ≡ change.with_list_ranks tasks.old res.now elems.now ranks.now }
    ensures system { tasks.new.system ≡ tasks.old.system }
    ensures count { length tasks.new.tasks ≡ length tasks.old.tasks }
{
    let mut rest = elems;
    let mut numbers = ranks;
    while let Some((elem, tail)) = rest.split_first() {
        let Some((number, others)) = numbers.split_first() else {
            return;
        };
        rank(tasks, res, elem.task, *number);
        rest = tail;
        numbers = others;
    }
}

/// The same of the lists of several resources.
fn rank_all(tasks: &mut Tasks, ranked: &[(Row, List<u64>)])
    ensures step { tasks.new ≡ change.with_ranks tasks.old ranked.now }
    ensures system { tasks.new.system ≡ tasks.old.system }
    ensures count { length tasks.new.tasks ≡ length tasks.old.tasks }
{
    let mut rest = ranked;
    while let Some((row, tail)) = rest.split_first() {
        rank_list(tasks, &row.0.res, row.0.elems.as_slice(), row.1.as_slice());
        rest = tail;
    }
}

/// The same of the parts of all lock entries.
#[tactic(auto, using(crate::proofs::RankParts::rank_parts))]
fn rank_parts(tasks: &mut Tasks, parts: &[List<(Row, List<u64>)>])
    ensures step { tasks.new ≡ change.with_ranks tasks.old (flat_map (λ part. part) parts.now) }
    ensures system { tasks.new.system ≡ tasks.old.system }
    ensures count { length tasks.new.tasks ≡ length tasks.old.tasks }
{
    let mut rest = parts;
    while let Some((part, tail)) = rest.split_first() {
        rank_all(tasks, part.as_slice());
        rest = tail;
    }
}

/// The line of looks, behind which more slices are left. There is no memory for more than 4,294,967,295.
fn more_left(showing: Option<Showing>, count: u32) -> Result<Option<Showing>, NoMemory>
    ensures { IfOk result (λ more. more ≡ option_map (change.more_left count) showing) }
{
    let Some(Showing { verb, left }) = showing else {
        return Ok(None);
    };
    match left.checked_add(count) {
        Some(left) => Ok(Some(Showing { verb, left })),
        None => Err(NoMemory),
    }
}

/// Of looks at several slices the first, behind which the others are left.
fn first_look(asked: Asked) -> Result<Asked, NoMemory>
    ensures { IfOk result (λ first. first ≡ change.first_look asked asked.req.want) }
{
    let Asked { req, unit, showing } = asked;
    let Req { task, want } = req;
    match want {
        Want::Look {
            first,
            count,
            filter,
        } => {
            let want = Want::Look {
                first,
                count: count.min(1),
                filter,
            };
            Ok(Asked {
                req: Req { task, want },
                unit,
                showing: more_left(showing, count.saturating_sub(1))?,
            })
        }
        want => Ok(Asked {
            req: Req { task, want },
            unit,
            showing,
        }),
    }
}

/// The same of what a task asks for, if it asks for anything.
fn first_of(asked: Option<Asked>) -> Result<Option<Asked>, NoMemory>
    ensures { IfOk result (λ first. first ≡ option_map (λ a. change.first_look a a.req.want) asked) }
{
    match asked {
        None => Ok(None),
        Some(asked) => Ok(Some(first_look(asked)?)),
    }
}

/// A request that waited to be put into the message waits to be sent: of several looks the first.
#[tactic(auto, using(crate::proofs::Kept::kept, crate::proofs::Kept::asked_again))]
fn take_first_look(tasks: &mut Tasks, req: &Req) -> Result<(), NoMemory>
    requires { is_task tasks.old req.now.task ≡ true }
    ensures step { OnOk result (tasks.new ≡ change.with_first_look tasks.old req.now.task req.now.want) }
    ensures system { tasks.new.system ≡ tasks.old.system }
    ensures count { length tasks.new.tasks ≡ length tasks.old.tasks }
{
    match &req.want {
        Want::Look { .. } => {
            let first = first_of(tasks.take_outstanding(req.task))?;
            tasks.set_outstanding(req.task, first);
            Ok(())
        }
        Want::Enq { .. } | Want::Deq { .. } | Want::Release { .. } => Ok(()),
    }
}

/// The same of all requests of an outbox.
#[tactic(auto, using(crate::proofs::Kept::kept))]
fn take_first_looks(tasks: &mut Tasks, reqs: &[Req]) -> Result<(), NoMemory>
    requires { are_of_system tasks.old.system (length tasks.old.tasks) reqs.now ≡ true }
    ensures step { OnOk result (tasks.new ≡ change.one_by_one tasks.old reqs.now) }
    ensures system { tasks.new.system ≡ tasks.old.system }
    ensures count { length tasks.new.tasks ≡ length tasks.old.tasks }
{
    let mut rest = reqs;
    while let Some((req, tail)) = rest.split_first() {
        take_first_look(tasks, req)?;
        rest = tail;
    }
    Ok(())
}

impl NodeState {
    /// The system's part in star mode by its table, and of each lock entry the rows with the ranks of their elements.
    fn ranked_part(
        &self,
        alloc: Global,
        entries: u32,
    ) -> Result<(StarPart, List<List<(Row, List<u64>)>>), NoMemory>
        requires entries { entries ≢ 0 }
        requires apart { AreApart self.now.shared }
        ensures part { IfOk result (λ made. made.0 ≡ change.part_by_table entries (record { 0 = self.now.tasks.system }) self.now.shared) }
        ensures ranked { IfOk result (λ made. flat_map (λ part. part) made.1 ≡ ranked_by entries self.now.shared) }
    {
        let system = self.tasks.system();
        let roles = roles_of(alloc, &self.shared, entries, system)?;
        let part = StarPart::by_roles(alloc, system, entries, &roles)?;
        Ok((part, roles.parts))
    }

    /// The requests of the outbox stay with their tasks, which wait to send them: of looks at several slices the first.
    fn empty_outbox(&mut self, alloc: Global) -> Result<(), NoMemory>
        ensures step { OnOk result (self.new ≡ record self.old { tasks = change.one_by_one self.old.tasks self.old.outbox; outbox = [] }) }
        ensures system { self.new.tasks.system ≡ self.old.tasks.system }
    {
        let waiting = std::mem::replace(&mut self.outbox, List::new(alloc));
        take_first_looks(&mut self.tasks, waiting.as_slice())
    }

    /// The system changes to star mode: it gets its part there by its table, and its tasks' records get ranks.
    #[tactic(auto, unfolding(crate::specs::Node::change_to_star))]
    fn change_to_star(&mut self, alloc: Global, deck: &Deck) -> Result<(), NoMemory>
        requires entries { deck.now.entries ≢ 0 }
        requires apart { AreApart self.old.shared }
        ensures step { OnOk result (self.new ≡ steps.change_to_star deck.now self.old) }
        ensures system { self.new.tasks.system ≡ self.old.tasks.system }
    {
        let (part, parts) = self.ranked_part(alloc, deck.entries)?;
        self.empty_outbox(alloc)?;
        rank_parts(&mut self.tasks, parts.as_slice());
        self.let_table_go(alloc, Some(part));
        Ok(())
    }

    /// The system changes to star mode, and then loses the systems that it knows to be removed.
    fn change(&mut self, alloc: Global, deck: &Deck, names: &[TaskId]) -> Result<(), NoMemory>
        requires entries { deck.now.entries ≢ 0 }
        requires apart { AreApart self.old.shared }
        requires names { names.now ≡ names_of deck.now self.old.tasks.system }
        ensures step { OnOk result (self.new ≡ steps.changed deck.now self.old) }
        ensures system { self.new.tasks.system ≡ self.old.tasks.system }
    {
        self.change_to_star(alloc, deck)?;
        let known = self.known;
        self.lose(alloc, names, known)
    }

    /// The system changes to star mode behind a Turn at a closed message, unless it has.
    pub(crate) fn change_if(
        &mut self,
        alloc: Global,
        deck: &Deck,
        names: &[TaskId],
        closed: bool,
    ) -> Result<(), NoMemory>
        requires entries { deck.now.entries ≢ 0 }
        requires apart { AreApart self.old.shared }
        requires names { names.now ≡ names_of deck.now self.old.tasks.system }
        ensures step { OnOk result ((fixed : List Fixed) → stepped self.new fixed ≡ steps.changed_if deck.now closed (stepped self.old fixed)) }
        ensures system { self.new.tasks.system ≡ self.old.tasks.system }
    {
        if closed && self.star.is_none() {
            self.change(alloc, deck, names)
        } else {
            Ok(())
        }
    }

    /// The complex changed to star mode by the next command of the system's desk, and the system with it, unless it has.
    #[tactic(auto, unfolding(crate::specs::Node::switched, crate::specs::Node::desk_told))]
    pub(crate) fn switched(
        &mut self,
        alloc: Global,
        deck: &Deck,
        names: &[TaskId],
    ) -> Result<(), NoMemory>
        requires entries { deck.now.entries ≢ 0 }
        requires apart { AreApart self.old.shared }
        requires desk { self.old.done < most_commands }
        requires names { names.now ≡ names_of deck.now self.old.tasks.system }
        ensures step { OnOk result (self.new ≡ steps.switched deck.now self.old) }
        ensures system { self.new.tasks.system ≡ self.old.tasks.system }
    {
        if self.star.is_some() {
            return Ok(());
        }
        self.desk_told(Said::StarDone)?;
        self.change(alloc, deck, names)
    }
}
