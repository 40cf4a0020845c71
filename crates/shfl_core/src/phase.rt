//! Where a pass stands: its phase, its registers and its park state.
use shfl_line::{Attr, Form, Mode};

/// What a pass does at its next step.
#[derive(Clone, Copy, Debug, PartialEq, Eq, Drop)]
pub enum Phase {
    /// It neither waits nor holds, and has no step to make.
    Idle,
    /// A writer takes the free lock past the queue, by one compare and swap.
    Steal,
    /// It clears its own state word before it joins the queue.
    Init,
    /// It becomes the queue's last; from here on it stands in the queue.
    Swap,
    /// Its predecessor's next word is still to name it; until then it is the queue's one gap.
    Link,
    /// It joined an empty queue, so it is the head, and disables stealing.
    Close,
    /// It waits: it reads its own state word, which others write.
    Look,
    /// It begins a round of shuffling: it takes its flag back and has a batch number from here on.
    Begin,
    /// A round looks for the pass behind the one that it has come to.
    Next,
    /// A round looks whether the candidate is the queue's last, which is never moved.
    Tail,
    /// A round reads the candidate's attributes.
    Attr,
    /// A round looks whether it must end, and else the policy decides.
    Decide,
    /// A round reads who stands behind the candidate.
    After,
    /// The first store of a relink: the candidate is taken out of the queue.
    Pick,
    /// The second store of a relink: the candidate's next word names the first pass behind the batch.
    Aim,
    /// The third store of a relink: the candidate stands behind the batch's last.
    Place,
    /// The candidate gets the next batch number.
    Mark,
    /// The round ends, and the batch's last becomes the shuffler.
    Give,
    /// A writer at the queue's head waits for the free lock.
    Peek,
    /// A writer at the head takes the lock that was free when it looked, where no readers are.
    Grab,
    /// A writer at the head takes the lock, if its word is the one that it saw.
    WriteGrab,
    /// It holds the lock, and asks its next word for the successor.
    Take,
    /// No successor was named: it leaves the queue empty, unless somebody has joined.
    Cut,
    /// Somebody has joined and not written its name yet, so it asks again.
    Late,
    /// It makes its successor the queue's head.
    Ready,
    /// It left the queue empty, and enables stealing.
    Open,
    /// It holds the lock, and has no step to make unless it owes a wakeup.
    Held,
    /// A writer frees the lock.
    Release,
    /// A reader counts itself in past the queue.
    Count,
    /// A reader that met a writer or disabled stealing counts itself out, and queues.
    Uncount,
    /// A reader's attempt that met a writer or disabled stealing counts itself out.
    TryUncount,
    /// A reader at the queue's head counts itself in.
    HeadCount,
    /// A reader at the head is counted, and waits until no writer holds.
    HeadLook,
    /// A reader frees the lock.
    ReadRelease,
}

/// What a pass remembers. Passes are named by their numbers, from 0. The widest come first, so that few bytes lie unused between them.
#[derive(Clone, Copy, Debug, PartialEq, Eq, Drop)]
pub struct Registers {
    /// The candidate's attribute word.
    pub seen: u64,
    /// The lock word that was found last, where the pass must compare with it or report it.
    pub saw: u64,
    /// The pass's own number.
    pub me: u32,
    /// The pass that stood at the queue's end when this one joined.
    pub before: u32,
    /// The pass behind which a round looks for the next candidate.
    pub prev: u32,
    /// The last pass of the batch.
    pub last: u32,
    /// The pass that stood directly behind `last` when the round left it.
    pub first: u32,
    /// The candidate.
    pub cand: u32,
    /// The candidate's successor.
    pub after: u32,
    /// The pass that becomes the queue's head.
    pub heir: u32,
    /// The batch number of its own state word, as it was read last.
    pub batch: u16,
    /// The batch number of `last`.
    pub count: u16,
    /// How it takes the lock.
    pub mode: Mode,
    /// The shuffler flag of its own state word, as it was read last.
    pub flag: bool,
    /// The round began at the queue's head.
    pub headed: bool,
}

/// Whether a waiter is awake. While it is not, its steps are those of parking, and its phase stays.
#[derive(Clone, Copy, Debug, PartialEq, Eq, Drop)]
pub enum Nap {
    /// The next step is that of the phase.
    Awake,
    /// It is about to announce that it parks.
    Doze,
    /// It is parked and waits for its wakeup word.
    Hear,
    /// It was woken and takes its announcement back.
    Rouse,
    /// It is about to set the wakeup word of another pass.
    Ring { whom: u32 },
}

/// Where a pass stands between two steps.
#[derive(Clone, Copy, Debug, PartialEq, Eq, Drop)]
pub struct PassState {
    pub reg: Registers,
    pub nap: Nap,
    pub phase: Phase,
}

/// What a lock's opening fixes for every pass: the largest batch number, and the form.
#[derive(Clone, Copy, Debug, PartialEq, Eq, Drop)]
pub struct Rules {
    pub limit: u16,
    pub form: Form,
}

/// What the next step asks the policy.
#[derive(Clone, Copy, Debug, PartialEq, Eq, Drop)]
pub enum Ask {
    /// Nothing: the answer isn't looked at.
    Nothing,
    /// Whether to skip the round that begins with this batch number.
    Skip { batch: u16 },
    /// Whether the waiter with these attributes should join the batch, whose last number is `batch`.
    Should { waiter: Attr, batch: u16 },
}

/// The phases whose step matters to a parked waiter, with the pass whose state word it changes.
#[derive(Clone, Copy, Debug, PartialEq, Eq, Drop)]
pub enum Watch {
    Look,
    Mark { whom: u32 },
    Ready { whom: u32 },
    Other,
}
