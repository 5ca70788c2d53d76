//! What a front of a script says, in the words that a site and a machine use. Programs don't call these.
//!
//! Each is a law of the definitions that the contracts of this crate cite, for every block, every list of reservations,
//! every trace and every frame. The statements stand in `specs/Laws`, and the lemmas that prove them in the proof
//! module `Transactions`, so that inductions of upper crates may cite them.

ghost use Rattle.dali_script.specs.Laws.{LawfulFramesFollowAtTheStage, TracesGrowByAFrame};
ghost use Rattle.dali_script.specs.Laws.{StagesSayWhatWasSentAndFound, TransactionsBeginOnce};
ghost use Rattle.dali_script.specs.Laws.{OpeningsBeginWithTerminate, GearAreSearchedAnew, TransactionsEnd};
ghost use Rattle.dali_script.specs.Laws.{RecordsStayKept};
ghost use Rattle.dali_script.specs.Names.{AreReadBack};

/// A frame may follow a trace exactly if its command follows at the stage of the trace.
pub fn lawful_frames_follow_at_the_stage()
    ensures { LawfulFramesFollowAtTheStage }
{}

/// The stage, the search address, what queries of a random address were heard as, and the finding of a trace with one
/// more frame.
pub fn traces_grow_by_a_frame()
    ensures { TracesGrowByAFrame }
{}

/// The stage of a lawful trace has the search address and the finding of the trace, before and after a lawful frame.
pub fn stages_say_what_was_sent_and_found()
    ensures { StagesSayWhatWasSentAndFound }
{}

/// A transaction begins with TERMINATE, SEARCHADDRH, QUERY RANDOM ADDRESS (H) or direct arc power. None of these comes
/// later in one, but SEARCHADDRH: directly after the second INITIALISE, and as a question of a hunt or a roll call.
pub fn transactions_begin_once()
    ensures { TransactionsBeginOnce }
{}

/// INITIALISE, for gear without short address alone, and RANDOMISE come only after TERMINATE, in an opening.
pub fn openings_begin_with_terminate()
    ensures { OpeningsBeginWithTerminate }
{}

/// COMPARE, QUERY SHORT ADDRESS, PROGRAM SHORT ADDRESS and WITHDRAW come only after all three search commands. But the
/// COMPARE of a draw comes after SEARCHADDRH and SEARCHADDRM alone.
///
/// PROGRAM SHORT ADDRESS comes only if the gear that was found has no short address, with an address that may be given
/// to its random address. So may the address be at the QUERY SHORT ADDRESS after it, and at the WITHDRAW after that.
pub fn gear_are_searched_anew()
    ensures { GearAreSearchedAnew }
{}

/// No script has more than eight frames; and if the test says so, no frame may follow, else one may.
pub fn transactions_end()
    ensures { TransactionsEnd }
{}

/// What holds of all records that are kept holds of none, and of one more that fits and may be added;
/// and a number has one address.
pub fn records_stay_kept()
    ensures { RecordsStayKept }
{}

/// The code of a record, of an end and of a fault is read as what has it, and no other code is.
pub fn codes_are_read_back()
    ensures { AreReadBack }
{}
