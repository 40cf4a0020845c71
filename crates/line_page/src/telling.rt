//! The script that tells events and passes in words.
ghost use Rattle.std.specs.Prelude.{◌≡◌};
ghost use Rattle.line_page.specs.Texts.{telling_text};

/// The second part of the script.
#[tactic(auto, unfolding(crate::specs::Texts::telling_text))]
pub fn telling() -> &'static [u8]
    ensures { result.now ≡ telling_text }
{
    TELLING
}

const TELLING: &[u8] = br##"
// What is told in words.

function counted(n, one, many) {
  return n + " " + (n === 1 ? one : many);
}

// What is to be said of a pass after event k.
function viewOf(k, state, pass) {
  const own = past[pass];
  const asked = lastUpTo(own.asked, 2 * k + 1);
  const holder = state.holders.find((one) => one.pass === pass);
  const place = state.queue.findIndex((waiter) => waiter.pass === pass);
  const joined = lastUpTo(own.joined, k);
  const gained = lastUpTo(own.gained, k);
  const batch = place < 0 ? 0 : state.queue[place].batch;
  const view = {
    pass: pass,
    reads: holder ? holder.reads : asked % 2 === 1,
    holds: holder !== undefined,
    asked: asked >> 1,
    joined: joined,
    gained: gained,
    place: place,
    batch: batch,
    role: state.shuffler !== null && state.shuffler.pass === pass ? (state.shuffler.walks ? "walk" : "rest") : "",
    asleep: state.asleep.has(pass),
    before: place + (state.detached !== null && batch === 0 ? 1 : 0),
    gone: departed[k] - departed[joined],
    behind: joined === 0 ? 0 : waiting[joined] - 1,
  };
  view.kind = place >= 0 ? "queued"
    : state.detached === pass ? "detached"
    : view.holds ? "holds"
    : view.asked > Math.max(gained, joined) ? "asked" : "idle";
  return view;
}

function asWhat(view) {
  return view.reads ? "as a reader" : "as a writer";
}

function joinedWords(view) {
  return "It joined at event " + view.joined + " behind " + counted(view.behind, "waiter", "waiters") + "; since then "
    + counted(view.gone, "pass has", "passes have") + " left the queue.";
}

function placeWords(view) {
  const place = view.place === 0 ? "the head of the queue" : "number " + (view.place + 1) + " in the queue";
  return (view.holds ? "It has yet to leave the queue" : "It waits " + asWhat(view)) + " and is " + place + ": "
    + counted(view.before, "stands", "stand") + " before it now.";
}

// A pass in words.
function tellPass(view) {
  const words = ["Pass " + view.pass + "."];
  if (view.holds) {
    words.push("It holds the lock " + asWhat(view) + ", since event " + view.gained + ".");
  }
  if (view.kind === "queued") {
    words.push(placeWords(view), joinedWords(view));
    words.push(view.batch > 0 ? "It is in the batch with number " + view.batch + "." : "It is in no batch.");
  }
  if (view.kind === "detached") {
    words.push("It waits " + asWhat(view) + " and is detached: the shuffler has taken it out of the queue,"
      + " to put it back behind the batch.");
    words.push(joinedWords(view));
  }
  if (view.kind === "asked") {
    words.push("It asked for the lock " + asWhat(view) + " at event " + view.asked
      + ", and neither waits in the queue nor holds the lock yet.");
  }
  if (view.kind === "idle") {
    words.push(view.asked === 0
      ? "It hasn't asked for the lock yet."
      : "It is at rest; it last asked for the lock at event " + view.asked + ".");
  }
  if (view.role !== "") {
    words.push(view.role === "walk" ? "It is rearranging the queue." : "It is the next to rearrange the queue.");
  }
  if (view.asleep) {
    words.push("It is asleep.");
  }
  return words.join(" ");
}

function tellEvent(event) {
  const pass = "pass " + event.pass;
  switch (event.act) {
    case "write": return pass + " asks for the lock as a writer";
    case "read": return pass + " asks for the lock as a reader";
    case "free": return pass + " begins to give the lock back";
    default: return pass + " makes a step";
  }
}

function tellHolders(words, before, now) {
  for (const holder of now.holders) {
    if (!before.holders.some((other) => other.pass === holder.pass)) {
      words.push("pass " + holder.pass + " takes the lock " + asWhat(holder));
    }
  }
  for (const holder of before.holders) {
    if (!now.holders.some((other) => other.pass === holder.pass)) {
      words.push("pass " + holder.pass + " no longer holds the lock");
    }
  }
}

function placeIn(state, pass) {
  const place = state.queue.findIndex((waiter) => waiter.pass === pass);
  return place <= 0 ? "at the front of the queue" : "behind pass " + state.queue[place - 1].pass;
}

function tellQueue(words, before, now) {
  const waited = new Set(waitersOf(before));
  const waits = new Set(waitersOf(now));
  for (const pass of waits) {
    if (!waited.has(pass)) {
      words.push("pass " + pass + " joins " + placeIn(now, pass));
    }
  }
  for (const pass of waited) {
    if (!waits.has(pass)) {
      words.push("pass " + pass + " leaves the queue");
    }
  }
  if (now.detached !== null && now.detached !== before.detached) {
    words.push("pass " + now.detached + " is taken out of the queue");
  }
  if (before.detached !== null && now.detached !== before.detached && waits.has(before.detached)) {
    words.push("pass " + before.detached + " is put back " + placeIn(now, before.detached));
  }
}

function tellBatch(words, before, now) {
  const numbers = new Map(before.queue.map((waiter) => [waiter.pass, waiter.batch]));
  for (const waiter of now.queue) {
    if (waiter.batch > 0 && waiter.batch !== (numbers.get(waiter.pass) || 0)) {
      words.push("pass " + waiter.pass + " gets the batch number " + waiter.batch);
    }
  }
}

function tellShuffler(words, before, now) {
  const was = before.shuffler;
  const is = now.shuffler;
  if (is === null) {
    if (was !== null) {
      words.push("pass " + was.pass + " is no longer the shuffler");
    }
  } else if (was === null || was.pass !== is.pass || was.walks !== is.walks) {
    words.push("pass " + is.pass + (is.walks ? " begins to rearrange the queue" : " is to rearrange the queue next"));
  }
}

function tellSleepers(words, before, now) {
  for (const pass of now.asleep) {
    if (!before.asleep.has(pass)) {
      words.push("pass " + pass + " falls asleep");
    }
  }
  for (const pass of before.asleep) {
    if (!now.asleep.has(pass)) {
      words.push("pass " + pass + " is awake");
    }
  }
}

function tellWord(words, before, now) {
  const told = words.some((one) => one.includes("the lock"));
  if (now.held !== before.held && !told) {
    words.push(now.held ? "held is set in the lock word" : "held is cleared in the lock word");
  }
  if (now.closed !== before.closed) {
    words.push(now.closed ? "stealing is disabled" : "stealing is enabled");
  }
  if (now.readers !== before.readers && !told) {
    words.push("the lock word counts " + counted(now.readers, "reader", "readers"));
  }
}

// What changes from one state to the next.
function tellChanges(before, now) {
  const words = [];
  for (const tell of [tellHolders, tellQueue, tellBatch, tellShuffler, tellSleepers, tellWord]) {
    tell(words, before, now);
  }
  return words.join("; ");
}

// What the event comes to, in short.
function tellOutcome(k) {
  if (!eventOf(k).admitted) {
    return "not admitted";
  }
  return tellChanges(stateAt(k - 1), stateAt(k));
}

function sentence(words) {
  return words === "" ? "" : words[0].toUpperCase() + words.slice(1) + ".";
}
"##;
