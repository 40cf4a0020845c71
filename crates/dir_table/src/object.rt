//! The directory as an object of histories.
ghost use Rattle.dir_table.specs.Directory.{Directory};
ghost use Rattle.dir_table.specs.Numbers.{call_numbers, reply_numbers, state_numbers};
ghost use Rattle.dir_table.specs.Meanings.{reply_at, state_after, Reads, Admits};
ghost use Rattle.dir_table.specs.ObjectLaws.{calls_differ, states_differ, reads_leave, admits_stays};
ghost use Rattle.std.proofs.Common.{rules};

use crate::calls::{DirCall, DirReply};
use crate::dir::Dir;
use hist_log::{Object, Trail};

impl Object for Dir {
    type Call = DirCall;

    type Reply = DirReply;

    ghost state_numbers = { state_numbers };

    ghost call_numbers = { call_numbers };

    ghost reply_numbers = { reply_numbers };

    ghost reply_at = { reply_at };

    ghost state_after = { state_after };

    ghost reads = { Reads };

    ghost admits = { Admits };

    ghost spare = { λ d. d.spare };

    fn is_read(call: &DirCall) -> bool {
        match call {
            DirCall::Make { .. } | DirCall::Drop { .. } | DirCall::Rename { .. } => false,
            DirCall::Find { .. } | DirCall::Count { .. } | DirCall::Next { .. } => true,
        }
    }

    fn spare(&self) -> u32 {
        Dir::spare(self)
    }

    fn apply(&mut self, call: &DirCall) -> DirReply {
        match *call {
            DirCall::Make { dir, name } => self.make(dir, name),
            DirCall::Drop { dir, name } => self.drop_name(dir, name),
            DirCall::Rename {
                dir,
                name,
                to_dir,
                to_name,
            } => self.rename(dir, name, to_dir, to_name),
            DirCall::Find { .. } | DirCall::Count { .. } | DirCall::Next { .. } => {
                self.spend();
                self.look(call)
            }
        }
    }

    fn trail(&self) -> Trail {
        self.found()
    }

    // What was refused changes nothing but how many calls are left.
    fn follow(&mut self, call: &DirCall, reply: &DirReply, trail: &Trail) {
        match *reply {
            DirReply::Exists | DirReply::Absent => self.spend(),
            _ => {
                self.look_at(trail);
                let _ = self.apply(call);
            }
        }
    }

    fn look(&self, call: &DirCall) -> DirReply {
        match *call {
            DirCall::Find { dir, name } => self.find(dir, name),
            DirCall::Count { dir } => self.count(dir),
            DirCall::Next { dir, after } => self.next(dir, after),
            DirCall::Make { .. } | DirCall::Drop { .. } | DirCall::Rename { .. } =>
                DirReply::Absent,
        }
    }

    ghost calls_differ = { calls_differ };

    ghost replies_differ = { λ a b. Prim.search rules };

    ghost states_differ = { states_differ };

    ghost reads_leave = { reads_leave };

    ghost admits_stays = { admits_stays };
}
