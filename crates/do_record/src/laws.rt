//! What a record that is read has.
ghost use Rattle.std.specs.Prelude.{◌≡◌, ◌↔◌, ℕ, Err, List, Ok};
ghost use Rattle.do_sched.specs.declared.fault.SchedFault.TheVariants.{BadLine};
ghost use Rattle.do_record.specs.{Good.IsGoodRecord, Grammar.{IsFaultAt, IsRecord}};
ghost use Rattle.do_record.specs.{Recorded.record_of, declared.parts.Record.Record};

/// A law alone: each input of a record that is read may stand in a schedule: ports are from 1 to
/// 65,535, and a start has a selector with a plain value for each of its colons.
pub fn read_inputs_are_good()
    ensures { (bytes : List ℕ) (r : Record) → record_of bytes ≡ Ok r → IsGoodRecord r }
{}

/// A law alone: what is computed of bytes is the record that they are by the grammar, or their
/// first faulty line. So bytes are one record at most, and then no line of them is at fault.
pub fn readings_are_exact()
    ensures records { (bytes : List ℕ) (r : Record)
        → (record_of bytes ≡ Ok r) ↔ IsRecord bytes r }
    ensures faults { (bytes : List ℕ) (line : ℕ)
        → (record_of bytes ≡ Err (BadLine line)) ↔ IsFaultAt bytes line }
    ensures one_record { (bytes : List ℕ) (r s : Record) → IsRecord bytes r → IsRecord bytes s
        → r ≡ s }
{}
