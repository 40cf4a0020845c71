//! The script that draws the lock and its passes.
ghost use Rattle.std.specs.Prelude.{◌≡◌};
ghost use Rattle.line_page.specs.Texts.{drawing_text};

/// The third part of the script.
#[tactic(auto, unfolding(crate::specs::Texts::drawing_text))]
pub fn drawing() -> &'static [u8]
    ensures { result.now ≡ drawing_text }
{
    DRAWING
}

const DRAWING: &[u8] = br##"
// What is drawn: the lock, a box for each pass, and the lines of the events that are in sight.

const byId = (id) => document.getElementById(id);
const boxes = Array.from({ length: heading.passes }, (_, pass) => makeBox(pass));
const holderBoxes = boxes.map((_, pass) => makeBox(pass)); // a holder may stand in the queue too, until it leaves it
let pinned = null; // the pass that was chosen
let pointed = null; // the pass under the pointer

function make(tag, name, text) {
  const node = document.createElement(tag);
  node.className = name;
  node.textContent = text;
  return node;
}

function makeBox(pass) {
  const box = make("button", "pass", "");
  box.type = "button";
  box.dataset.pass = pass;
  box.addEventListener("pointerenter", (event) => event.pointerType === "mouse" && pointAt(pass));
  box.addEventListener("pointerleave", () => pointAt(null));
  box.addEventListener("focus", () => pointAt(pass));
  box.addEventListener("blur", () => pointAt(null));
  box.addEventListener("click", () => pin(pinned === pass ? null : pass));
  return box;
}

function labelsOf(view) {
  const labels = [];
  if (view.kind === "queued") {
    labels.push(make("span", "", view.before + " before"));
  }
  if (view.kind === "queued" || view.kind === "detached") {
    labels.push(make("span", "", view.gone + " gone"));
  }
  if (view.batch > 0) {
    labels.push(make("span", "", "batch " + view.batch));
  }
  if (view.asleep) {
    labels.push(make("span", "", "asleep"));
  }
  if (view.holds) {
    labels.push(make("span", "", "holds"));
  }
  if (view.role !== "") {
    labels.push(make("span", "role", view.role === "walk" ? "shuffles" : "to shuffle"));
  }
  return labels;
}

function askedLabel(view) {
  if (view.kind === "idle") {
    return "at rest";
  }
  return view.kind === "asked" ? (view.reads ? "asked to read" : "asked to write") : (view.reads ? "reader" : "writer");
}

function drawBox(box, view, marks, labels) {
  box.className = ["pass", ...marks, view.reads ? "reader" : ""].filter((mark) => mark !== "").join(" ");
  box.setAttribute("aria-pressed", String(pinned === view.pass));
  box.setAttribute("aria-label", tellPass(view));
  const name = make("span", "", " " + askedLabel(view));
  name.prepend(make("b", "", String(view.pass)));
  box.replaceChildren(name, ...labels);
  return box;
}

function drawHolder(view) {
  return drawBox(holderBoxes[view.pass], view, ["holds"], []);
}

function drawWaiter(view) {
  const marks = [view.kind, view.role, view.batch > 0 ? "batch" : "", view.asleep ? "asleep" : ""];
  return drawBox(boxes[view.pass], view, marks, labelsOf(view));
}

function drawOther(view) {
  return drawBox(boxes[view.pass], view, ["idle"], []);
}

function drawPasses(id, views, draw) {
  byId(id).replaceChildren(...(views.length === 0 ? [make("span", "none", "none")] : views.map(draw)));
}

function drawLock(state) {
  byId("held").textContent = state.held ? "held by a writer" : state.holders.length > 0 ? "held by readers" : "free";
  byId("stealing").textContent = state.closed ? "disabled" : "enabled";
  byId("readers").hidden = !heading.hasReaders;
  byId("counted").textContent = String(state.readers);
}

function drawGroups(k, state) {
  const focus = document.activeElement;
  const views = boxes.map((_, pass) => viewOf(k, state, pass));
  drawPasses("holders", views.filter((view) => view.holds), drawHolder);
  drawPasses("detached", views.filter((view) => view.kind === "detached"), drawWaiter);
  drawPasses("queue", state.queue.map((waiter) => views[waiter.pass]), drawWaiter);
  drawPasses("others", views.filter((view) => view.kind === "asked" || view.kind === "idle"), drawOther);
  if (focus !== document.activeElement && focus.classList.contains("pass")) {
    focus.focus({ preventScroll: true });
  }
}

function drawTold() {
  const pass = pointed === null ? pinned : pointed;
  byId("told").className = pass === null ? "hint" : "";
  byId("told").textContent = pass === null
    ? "Point at a pass, tap it, or go to it by the tab key: here it is told in words."
    : tellPass(viewOf(shown, stateAt(shown), pass));
}

function pointAt(pass) {
  pointed = pass;
  drawTold();
}

function pin(pass) {
  pinned = pass;
  for (const all of [boxes, holderBoxes]) {
    all.forEach((box, other) => box.setAttribute("aria-pressed", String(other === pass)));
  }
  drawTold();
}

// How many waited at each event, as a shape above the slider.
function drawLengths() {
  const columns = Math.min(events, 800);
  const most = Math.max(1, ...sample(columns));
  const points = sample(columns).map((length, i) => "L" + i + " " + (most - length) + "H" + (i + 1));
  byId("lengths").setAttribute("viewBox", "0 0 " + Math.max(columns, 1) + " " + most);
  byId("lengths").querySelector("path").setAttribute("d", "M0 " + most + points.join("") + "V" + most + "Z");
}

// The longest queue within each of so many parts of the run.
function sample(columns) {
  const longest = new Array(columns).fill(0);
  for (let k = 1; k <= events; k += 1) {
    const column = Math.floor(((k - 1) * columns) / events);
    longest[column] = Math.max(longest[column], waiting[k]);
  }
  return longest;
}

function drawPlace(k) {
  const box = byId("lengths").viewBox.baseVal;
  const line = byId("lengths").querySelector("line");
  const x = events === 0 ? 0 : ((k - 0.5) * box.width) / events;
  for (const [name, value] of [["x1", x], ["x2", x], ["y1", 0], ["y2", box.height]]) {
    line.setAttribute(name, value);
  }
}
"##;
