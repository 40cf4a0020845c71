//! The script that reads the report: its lines, what each says, and what they come to.
ghost use Rattle.std.specs.Prelude.{◌≡◌};
ghost use Rattle.line_page.specs.Texts.{reading_text};

/// The first part of the script.
#[tactic(auto, unfolding(crate::specs::Texts::reading_text))]
pub fn reading() -> &'static [u8]
    ensures { result.now ≡ reading_text }
{
    READING
}

const READING: &[u8] = br##""use strict";

// The report. Line 0 is its heading, line k the one of event k; behind the last event stand the totals.
const report = document.getElementById("report").textContent;
const starts = lineStarts(report);
const events = starts.length - 3;
const heading = headingOf(lineOf(0));

function lineStarts(text) {
  const found = [0];
  for (let at = text.indexOf("\n"); at >= 0; at = text.indexOf("\n", at + 1)) {
    found.push(at + 1);
  }
  return found;
}

function lineOf(k) {
  return report.slice(starts[k], starts[k + 1] - 1);
}

function headingOf(line) {
  const words = line.split(" ");
  const behind = (label) => words[words.indexOf(label) + 1];
  const form = behind("form");
  return {
    form: form,
    limit: Number(behind("limit")),
    passes: Number(behind("passes")),
    hasReaders: form.startsWith("rw"),
    hasSleepers: form.endsWith("park"),
  };
}

// A column of several passes.
function partsOf(column) {
  return column === "-" ? [] : column.split(",");
}

function passIn(column) {
  return column === "-" ? null : Number(column);
}

function shufflerIn(column) {
  if (column === "-") {
    return null;
  }
  const [how, pass] = column.split(":");
  return { pass: Number(pass), walks: how === "walk" };
}

// The columns from `word` on, in which a lock's state stands.
function stateOf(words) {
  const lock = BigInt(words[1]);
  return {
    held: lock % 2n === 1n,
    closed: (lock / 256n) % 2n === 1n,
    readers: Number(lock >> 32n),
    holders: partsOf(words[3]).map((part) => ({ pass: Number(part.slice(1)), reads: part[0] === "r" })),
    queue: partsOf(words[5]).map((part) => {
      const [pass, batch] = part.split(":");
      return { pass: Number(pass), batch: Number(batch) };
    }),
    detached: passIn(words[7]),
    shuffler: shufflerIn(words[9]),
    asleep: new Set(partsOf(words[11] || "-").map(Number)),
  };
}

const quiet = "word 0 hold - line - hand - role -" + (heading.hasSleepers ? " asleep -" : "");

// The state after event k; before the first event nobody holds the lock and nobody waits.
function stateAt(k) {
  return stateOf(k < 1 ? quiet.split(" ") : lineOf(k).split(" ").slice(4));
}

function eventOf(k) {
  const words = lineOf(k).split(" ", 4);
  return { act: words[1], pass: Number(words[2]), admitted: words[3] === "yes" };
}

function waitersOf(state) {
  const waiters = state.queue.map((waiter) => waiter.pass);
  return state.detached === null ? waiters : [...waiters, state.detached];
}

// What the events come to, found in one walk over the lines.
const changing = []; // the events at which the state changes
const waiting = new Uint8Array(events + 1); // how many wait after each event
const departed = new Uint32Array(events + 1); // how many have left the queue by then
const past = Array.from({ length: heading.passes }, () => ({ asked: [], joined: [], gained: [] }));

function walkEvents() {
  const waits = new Uint8Array(heading.passes);
  const holds = new Uint8Array(heading.passes);
  let before = quiet;
  for (let k = 1; k <= events; k += 1) {
    const line = lineOf(k);
    const event = eventOf(k);
    if (event.admitted && (event.act === "write" || event.act === "read")) {
      past[event.pass].asked.push(2 * k + (event.act === "read" ? 1 : 0));
    }
    waiting[k] = waiting[k - 1];
    departed[k] = departed[k - 1];
    const state = line.slice(line.indexOf(" word ") + 1);
    if (state !== before) {
      changing.push(k);
      walkChange(k, stateOf(state.split(" ")), waits, holds);
      before = state;
    }
  }
}

function walkChange(k, state, waits, holds) {
  const waiters = new Set(waitersOf(state));
  const holders = new Set(state.holders.map((holder) => holder.pass));
  past.forEach((own, pass) => {
    if (!waits[pass] && waiters.has(pass)) {
      own.joined.push(k);
    }
    if (waits[pass] && !waiters.has(pass)) {
      departed[k] += 1;
    }
    if (!holds[pass] && holders.has(pass)) {
      own.gained.push(k);
    }
    waits[pass] = waiters.has(pass) ? 1 : 0;
    holds[pass] = holders.has(pass) ? 1 : 0;
  });
  waiting[k] = waiters.size;
}

// How many of the rising numbers are at most this one.
function countUpTo(numbers, most) {
  let low = 0;
  let high = numbers.length;
  while (low < high) {
    const middle = (low + high) >> 1;
    if (numbers[middle] <= most) {
      low = middle + 1;
    } else {
      high = middle;
    }
  }
  return low;
}

// The last of the rising numbers that is at most this one, or 0.
function lastUpTo(numbers, most) {
  const count = countUpTo(numbers, most);
  return count === 0 ? 0 : numbers[count - 1];
}
"##;
