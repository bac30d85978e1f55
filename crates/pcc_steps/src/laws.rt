//! What holds of the words and both ends between any two word steps, as laws. A step starts in any state that has the
//! relation and reads the stepping end's own state and one word, so the laws hold for one owner of the words and for two
//! threads that share them.
ghost use Rattle.pcc_steps.specs.Laws.{StartsAgreed, AskStepAgrees, PostBeginAgrees, LookBeginAgrees, BudgetAgrees, AnswerBeginAgrees, AnswerStepAgrees, DeviceStays, DeviceTurns, DeviceRests, HistoriesAgree, PostsByTable, LooksByTable, AsksByTable, PostsWithin, LooksWithin, AskRunsWithin, AnswersByTable, AnswerStepsByTable, ExecutesByTable, AnswersWithin, AnswerRunsWithin, AskTellsEnds, AnswerTellsEnds, AskStepsCount, AnswerStepsCount, CountRises, AskCountWithin, AnswerCountWithin, AskStepWithin, RefusesIdentity, RefusesFlag, RefusesLength, RefusesInput, RefusesSpace, RefusesOpening};
ghost use Rattle.pcc_steps.specs.Reached.{ReachedIsSound};

use pcc_exec::Executor;

/// Two new machines and the opening content have the relation; what begins a run of the asking end, and each of its word
/// steps, keeps it. It does nothing.
pub fn asking_laws()
    ensures starts { StartsAgreed }
    ensures budget { BudgetAgrees }
    ensures post { PostBeginAgrees }
    ensures look { LookBeginAgrees }
    ensures step { AskStepAgrees }
{}

/// What begins a run of the answering end, and each of its word steps, keeps the relation, for any device. It does
/// nothing.
pub fn answering_laws<E: Executor>()
    ensures begin { AnswerBeginAgrees }
    ensures step { AnswerStepAgrees E.exec_of E.is_state E.room_of }
    ensures device { DeviceStays E.exec_of E.is_state E.room_of }
{}

/// The asking machine walks the tables of its runs, and how long they are. It does nothing.
pub fn asking_tables()
    ensures post { PostsByTable }
    ensures look { LooksByTable }
    ensures step { AsksByTable }

    // A run that posts takes at most 7 word steps more than the block has words, a look at most 6 more.
    ensures posts { PostsWithin }
    ensures looks { LooksWithin }
    ensures runs { AskRunsWithin }
{}

/// A run of either machine ends exactly with the step that reports its outcome. It does nothing.
pub fn ending_laws()
    ensures asks { AskTellsEnds }
    ensures answers { AnswerTellsEnds }
{}

/// The count of word steps of either machine: each step raises it by one until it is 2^64 - 1, and a run raises
/// it by no more than its table has steps. It does nothing.
pub fn counting_laws()
    ensures rises { CountRises }
    ensures asks { AskStepsCount }
    ensures answers { AnswerStepsCount }
    ensures within { AskStepWithin }
    ensures ask_run { AskCountWithin }
    ensures answer_run { AnswerCountWithin }
{}

/// The answering machine walks the table of its runs, and how long they are. It does nothing.
pub fn answering_tables()
    ensures begin { AnswersByTable }
    ensures step { AnswerStepsByTable }
    ensures device { ExecutesByTable }

    // A run takes at most 11 word steps more than twice the words of the block.
    ensures answers { AnswersWithin }
    ensures runs { AnswerRunsWithin }
{}

/// When the device executes: with the word step that loads the last word of the block, and no other. It does nothing.
pub fn device_laws()
    ensures turn { DeviceTurns }
    ensures rest { DeviceRests }
{}

/// Each end's history, by the relation. It does nothing.
pub fn history_laws()
    ensures { HistoriesAgree }
{}

/// The theorem for every list of steps: each state that is reached from new machines over the opening content, by calls
/// that are begun and single word steps of either end in any order, is sound. It does nothing.
pub fn reached_laws<E: Executor>()
    ensures { ReachedIsSound E.exec_of E.is_state E.room_of }
{}

/// What the relation refuses: of a pending command, header words of another identity, notify flag or length, and another
/// input; and a shown space that isn't the last output. It does nothing.
pub fn refusing_laws()
    ensures identity { RefusesIdentity }
    ensures flag { RefusesFlag }
    ensures length { RefusesLength }
    ensures input { RefusesInput }
    ensures space { RefusesSpace }
    ensures opening { RefusesOpening }
{}
