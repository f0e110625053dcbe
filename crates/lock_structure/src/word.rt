//! One lock word: its parts, and what it becomes. After the lock structure that z/OS MVS Planning: Global Resource
//! Serialization describes for a star complex; how a word is laid out is this project's own.
ghost use Rattle.std.specs.Prelude.{◌≡◌, ◌<◌, ◌^◌, [], ◌∷◌, IfSome, IfNone};
ghost use Rattle.grs_base.specs.Limits.{most_systems};
ghost use Rattle.grs_wire.specs.LockWords.{interest, manager, epoch, manager_number, lock_word, is_manager, is_kept, submitted, leave_reply, leave_changes, left_word};
ghost use Rattle.lock_structure.specs.Words.{route};
ghost use Rattle.lock_structure.specs.Purge.{next_epoch, purged_word, made_known, moved_at};

use crate::least::least_of;
use grs_base::SysId;
use grs_wire::masks::{has_system, with_system, without_system};
use grs_wire::{Moved, Reply};

/// So many sets of systems can stand in the lowest bits of a word.
const SETS: u32 = 256;

/// So many numbers can stand in the bits above: 0 for no manager, else the manager's number plus one.
const NUMBERS: u32 = 16;

/// The last epoch of a word, which stays: more than there are systems to be removed.
const LAST_EPOCH: u32 = 15;

/// Where a request goes.
#[derive(Clone, Copy, Debug, PartialEq, Eq)]
pub enum Route {
    /// Nowhere: the caller manages the lock entry.
    Sole,
    /// To this system, which manages it.
    To(SysId),
}

/// The set of the systems that have interest.
pub fn interest(word: u32) -> u32
    ensures set { result ≡ interest word }
    ensures small { result < 256 }
{
    word % SETS
}

/// The system that manages the entry, if there is one.
#[tactic(auto, unfolding(grs_wire::specs::LockWords::manager))]
pub fn manager(word: u32) -> Option<SysId>
    ensures manager { result ≡ manager word }
    ensures number { manager_number result < 16 }
{
    let number = word / SETS % NUMBERS;
    if number == 0 {
        None
    } else {
        Some(SysId((number - 1) as u8))
    }
}

/// How often the entry changed its manager because a system was removed.
pub fn epoch(word: u32) -> u32
    ensures epoch { result ≡ epoch word }
    ensures small { result < 2 ^ 20 }
{
    word / (SETS * NUMBERS)
}

/// The number that stands in a word for the manager.
fn manager_number(manager: Option<SysId>) -> u32
    ensures { result ≡ manager_number manager }
{
    match manager {
        None => 0,
        Some(system) => system.0 as u32 + 1,
    }
}

/// The word of these parts.
#[tactic(auto, unfolding(grs_wire::specs::LockWords::lock_word))]
fn word_of(mask: u32, manager: Option<SysId>, epoch: u32) -> u32
    requires mask { mask < 256 }
    requires manager { manager_number manager < 16 }
    requires epoch { epoch < 2 ^ 20 }
    ensures { result ≡ lock_word mask manager epoch }
{
    mask + SETS * manager_number(manager) + SETS * NUMBERS * epoch
}

/// Whether the caller manages the entry.
pub fn is_managed_by(word: u32, caller: SysId) -> bool
    ensures { result ≡ is_manager (manager word) caller }
{
    match manager(word) {
        None => false,
        Some(system) => system.0 == caller.0,
    }
}

/// Where a request of the caller goes: the first that has interest manages the entry.
#[tactic(auto, unfolding(crate::specs::Words::route))]
pub fn route_of(word: u32, caller: SysId) -> Route
    ensures { result ≡ route word caller }
{
    match manager(word) {
        None => Route::Sole,
        Some(system) => {
            if system.0 == caller.0 {
                Route::Sole
            } else {
                Route::To(system)
            }
        }
    }
}

/// The word after a request of the caller.
#[tactic(auto, using(grs_wire::proofs::MaskLaws::small_sets), unfolding(grs_wire::specs::LockWords::submitted))]
pub fn submitted(word: u32, caller: SysId) -> u32
    requires { caller.0 < most_systems }
    ensures { result ≡ submitted word caller }
{
    match manager(word) {
        None => word_of(with_system(0, caller), Some(caller), epoch(word)),
        Some(system) => {
            if system.0 == caller.0 {
                return word;
            }
            let mask = with_system(interest(word), caller);
            word_of(mask, Some(system), epoch(word))
        }
    }
}

/// Whether the caller manages the entry, and would leave others behind that have interest.
pub fn is_kept(word: u32, caller: SysId) -> bool
    requires { caller.0 < most_systems }
    ensures { result ≡ is_kept word caller }
{
    let mask = interest(word);
    has_system(mask, caller) && is_managed_by(word, caller) && mask != with_system(0, caller)
}

/// Whether the word changes where the caller gives up its interest.
#[tactic(auto, unfolding(grs_wire::specs::LockWords::leave_changes))]
pub fn leave_changes(word: u32, caller: SysId) -> bool
    requires { caller.0 < most_systems }
    ensures { result ≡ leave_changes word caller }
{
    has_system(interest(word), caller) && !is_kept(word, caller)
}

/// What the caller is answered that gives up its interest.
#[tactic(auto, unfolding(grs_wire::specs::LockWords::leave_reply))]
pub fn leave_reply(word: u32, caller: SysId) -> Reply
    requires { caller.0 < most_systems }
    ensures { result ≡ leave_reply word caller }
{
    if is_kept(word, caller) {
        Reply::Kept {
            mask: interest(word),
        }
    } else {
        Reply::Left
    }
}

/// The word after the caller has given up its interest.
#[tactic(auto, using(grs_wire::proofs::MaskLaws::small_sets), unfolding(grs_wire::specs::LockWords::left_word))]
pub fn left(word: u32, caller: SysId) -> u32
    requires { caller.0 < most_systems }
    ensures { result ≡ left_word word caller }
{
    if !leave_changes(word, caller) {
        return word;
    }
    if is_managed_by(word, caller) {
        return word_of(0, None, epoch(word));
    }
    let mask = without_system(interest(word), caller);
    word_of(mask, manager(word), epoch(word))
}

/// The epoch that follows, up to the last one.
fn next_epoch(epoch: u32) -> u32
    requires { epoch < 2 ^ 20 }
    ensures next { result ≡ next_epoch epoch }
    ensures small { result < 2 ^ 20 }
{
    if epoch < LAST_EPOCH { epoch + 1 } else { epoch }
}

/// The word once a system is removed: it has no interest any more, and where it managed the entry, the least of the
/// others that have interest does.
#[tactic(auto, using(grs_wire::proofs::MaskLaws::small_sets), unfolding(crate::specs::Purge::purged_word))]
pub fn purged(word: u32, target: SysId) -> u32
    requires { target.0 < most_systems }
    ensures { result ≡ purged_word word target }
{
    let mask = without_system(interest(word), target);
    if is_managed_by(word, target) {
        return word_of(mask, least_of(mask), next_epoch(epoch(word)));
    }
    word_of(mask, manager(word), epoch(word))
}

/// How an entry with this word is made known, where somebody manages it.
fn made_known(entry: u32, word: u32) -> Option<Moved>
    ensures none { IfNone result (made_known entry (manager word) word ≡ []) }
    ensures some { IfSome result (λ item. made_known entry (manager word) word ≡ item ∷ []) }
{
    match manager(word) {
        None => None,
        Some(manager) => Some(Moved {
            entry,
            manager,
            mask: interest(word),
            epoch: epoch(word),
        }),
    }
}

/// What is made known of an entry with this word once a system is removed that managed it.
pub fn moved(entry: u32, word: u32, target: SysId) -> Option<Moved>
    requires { target.0 < most_systems }
    ensures none { IfNone result (moved_at entry word target ≡ []) }
    ensures some { IfSome result (λ item. moved_at entry word target ≡ item ∷ []) }
{
    if is_managed_by(word, target) {
        made_known(entry, purged(word, target))
    } else {
        None
    }
}
