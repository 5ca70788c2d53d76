//! What the definitions say that the contracts of this crate cite. Programs don't call these.

ghost use Rattle.std.specs.Prelude.{List, None};
ghost use Rattle.dali_script.specs.Records.{Kept};
ghost use Rattle.dali_statement.specs.Own.{AreOwn};
ghost use Rattle.dali_controller.specs.Machine.{at_first};
ghost use Rattle.dali_controller.specs.Acts.{Steps, acts_of, own_of};
ghost use Rattle.dali_c.specs.Machines.{Holds};
ghost use Rattle.dali_c.specs.Hosts.{Call, AreCalls, AreSpelled};
ghost use Rattle.dali_c.specs.Records.{RecordsHaveTheirBytes};
ghost use Rattle.dali_c.specs.declared.machine.PlainMachine.{PlainMachine};

/// Records of one controller have the same bytes, however they were made.
pub fn records_have_their_bytes()
    ensures { RecordsHaveTheirBytes }
{}

/// CALLS KEEP TO THE SCRIPTS, whatever the machine is told. From the struct of `dali_machine_new` on, each call of
/// `dali_machine_step` that is answered OK goes on with the struct of the one before; all others change nothing. Their
/// acts are the frames that they ordered, with what was told of each, and the records of which COMMITTED was told. So a
/// host that does what is ordered is a program of `programs_keep_the_promise` of `dali_statement`.
pub fn calls_keep_to_scripts()
    ensures { (p : PlainMachine) (k : Kept) (calls : List Call) → Holds p (at_first 0 k) → AreCalls p calls
        → (steps : Steps) × AreSpelled calls steps × AreOwn (own_of (at_first 0 k)) (acts_of None steps) }
{}
