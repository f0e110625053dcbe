//! Laws of what is gathered, and of who is told control: each function's contract is one, and there is nothing to run.
ghost use Rattle.system_purge.specs.Gather.{OrderIsOne, CountingAreClear, ClearAllCount, NoneIsMissing, FirstCounts, GatheredInOrder};
ghost use Rattle.system_purge.specs.Purge.{FreedAreTold};

/// Records are in order in one way alone.
pub fn order_is_one()
    ensures { OrderIsOne }
{}

/// Of the records that count no two have one rank, or are of one task and resource.
pub fn counting_are_clear()
    ensures { CountingAreClear }
{}

/// Where there are no such two all count.
pub fn clear_all_count()
    ensures { ClearAllCount }
{}

/// Each record that doesn't count clashes with one that does.
pub fn none_is_missing()
    ensures { NoneIsMissing }
{}

/// The first record counts.
pub fn first_counts()
    ensures { FirstCounts }
{}

/// What is gathered is in order.
pub fn gathered_in_order()
    ensures { GatheredInOrder }
{}

/// Tasks that get control list by list are told one after the other.
pub fn freed_are_told()
    ensures { FreedAreTold }
{}
