//! Laws of the directory: what a call looks at, and how a number carries a change from one directory to another.
ghost use Rattle.std.specs.Prelude.{◌≡◌, ℕ};
ghost use Rattle.dir_table.specs.declared.calls.DirCall.{DirCall};
ghost use Rattle.dir_table.specs.Directory.{Directory};
ghost use Rattle.dir_table.specs.Answers.{reply_to, after};
ghost use Rattle.shard_rows.specs.Replay.{number_of};
ghost use Rattle.shard_rows.specs.Shares.{names_in, first_named, alone, advanced, next_after, IsNumbered};

/// A call's reply, and the number that it gives or moves, come from the names of the directory that it names first, and from the next number.
pub fn calls_look_at_one_directory()
    ensures reply { (d : Directory) (call : DirCall)
        → reply_to (alone d (names_in d.names (first_named call))) call ≡ reply_to d call }
    ensures number { (d : Directory) (call : DirCall)
        → number_of (alone d (names_in d.names (first_named call))) call ≡ number_of d call }
{}

/// What a call makes of each directory's names, and of the next number, comes from these and the number beside the call.
pub fn numbers_carry_changes()
    ensures names { (d : Directory) (call : DirCall) (k : ℕ) → IsNumbered d
        → names_in (after d call).names k
        ≡ advanced k (names_in d.names k) call (number_of d call) }
    ensures next { (d : Directory) (call : DirCall) → IsNumbered d
        → (after d call).next_number ≡ next_after call (number_of d call) d.next_number }
    ensures numbered { (d : Directory) (call : DirCall) → IsNumbered d → IsNumbered (after d call) }
{}
