//! Laws of what mail does to the tasks of a system: each function's contract is one, and there is nothing to run.
ghost use Rattle.star_client.specs.Laws.{AnswersGiveRanks};

/// A record that an answer makes has the rank which came with the answer.
pub fn answers_give_ranks()
    ensures { AnswersGiveRanks }
{}
