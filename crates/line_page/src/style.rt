//! How the page looks: light and dark, on a desk and on a phone.
ghost use Rattle.std.specs.Prelude.{◌≡◌};
ghost use Rattle.line_page.specs.Texts.{style_text};

/// The style sheet.
#[tactic(auto, unfolding(crate::specs::Texts::style_text))]
pub fn style() -> &'static [u8]
    ensures { result.now ≡ style_text }
{
    STYLE
}

const STYLE: &[u8] = br##":root {
  --paper: #fff; --ink: #1b1b1b; --dim: #5c5c5c; --edge: #8a8a8a; --soft: #f1f1f1;
  --batch: #cfe5f5; --batch-edge: #0072b2; --shuffle: #b34700; --here: #fff1c9; --hatch: #d6d6d6;
}
@media (prefers-color-scheme: dark) {
  :root {
    --paper: #161616; --ink: #eee; --dim: #b0b0b0; --edge: #7d7d7d; --soft: #252525;
    --batch: #0d3c5c; --batch-edge: #56b4e9; --shuffle: #ff9a4d; --here: #4a3d10; --hatch: #3d3d3d;
  }
}
* { box-sizing: border-box; }
[hidden] { display: none !important; }
html { font: 16px/1.4 system-ui, sans-serif; background: var(--paper); color: var(--ink); }
body { margin: 0 auto; max-width: 90rem; padding: 0 1rem; }
h1 { font-size: 1.3rem; margin: .8rem 0 .1rem; }
h2 { font-size: 1.1rem; margin: 0; }
h3 { font-size: .8rem; font-weight: 600; margin: 0 0 .3rem; color: var(--dim); }
#about { margin: 0 0 .6rem; color: var(--dim); font-size: .9rem; }
#report { white-space: pre-wrap; overflow-wrap: anywhere; }
.scripted #report { display: none; }
html:not(.scripted) main { display: none; }
#said { min-height: 6.4rem; }
#changes { margin: .1rem 0 .3rem; }
#line {
  display: block; font: .8rem/1.4 ui-monospace, monospace; color: var(--dim);
  overflow-wrap: anywhere; max-height: 4.6rem; overflow-y: auto;
}
dl { display: flex; flex-wrap: wrap; gap: .3rem 1.5rem; margin: .5rem 0; }
dl div { display: flex; gap: .4rem; }
dt { color: var(--dim); }
dd { margin: 0; font-weight: 600; }
.groups { display: flex; flex-wrap: wrap; column-gap: 2.5rem; }
.group { margin: 0 0 .7rem; }
.passes { display: flex; flex-wrap: wrap; row-gap: .6rem; min-height: 3rem; }
#queue { min-height: 6rem; }
#others { min-height: 2.2rem; }
.none { color: var(--dim); }
.pass {
  position: relative; display: flex; flex-direction: column; justify-content: flex-start; align-items: flex-start;
  width: 6.2rem; margin-right: 1.3rem; padding: .2rem .4rem; text-align: left;
  font: inherit; font-size: .75rem; line-height: 1.3; color: inherit; background: var(--paper);
  border: 2px solid var(--edge); border-radius: 2px; cursor: pointer; touch-action: manipulation;
}
.pass b { font-size: 1.1rem; margin-right: .1rem; }
.pass span { white-space: nowrap; }
.pass.reader { border-radius: 1.1rem; padding-left: .7rem; }
.pass.batch { background: var(--batch); border-color: var(--batch-edge); }
.pass.asleep { background-image: repeating-linear-gradient(135deg, transparent 0 6px, var(--hatch) 6px 8px); }
.pass.holds { border-width: 4px; border-color: var(--ink); }
.pass.detached { border-style: dotted; border-color: var(--ink); }
.pass.walk { outline: 3px solid var(--shuffle); outline-offset: 1px; }
.pass.rest { outline: 3px dashed var(--shuffle); outline-offset: 1px; }
.pass .role { color: var(--shuffle); font-weight: 700; }
.pass[aria-pressed="true"] { box-shadow: 0 0 0 7px var(--here); }
.pass.idle { display: block; width: auto; margin-right: .4rem; padding: .1rem .5rem; border-width: 1px; }
.pass.idle b { font-size: .9rem; }
#queue .pass:not(:last-child)::after {
  content: "\2192"; position: absolute; left: calc(100% + .2rem); top: 1.2rem; font-size: 1rem; color: var(--dim);
}
#told { margin: 0 0 .6rem; padding: .5rem .7rem; background: var(--soft); border-left: 4px solid var(--edge); min-height: 5rem; }
#told.hint { color: var(--dim); }
details { margin: 0 0 .7rem; font-size: .9rem; }
details ul { margin: .3rem 0 0; padding-left: 1.2rem; }
#controls {
  position: sticky; bottom: 0; z-index: 2; margin: 0 -1rem; padding: .3rem 1rem .5rem;
  background: var(--paper); border-top: 1px solid var(--edge);
}
#lengths { display: block; width: 100%; height: 2rem; margin-top: .2rem; background: var(--soft); cursor: pointer; }
#lengths path { fill: var(--batch-edge); fill-opacity: .55; }
#lengths line { stroke: var(--shuffle); stroke-width: 2; vector-effect: non-scaling-stroke; }
#at { display: block; width: 100%; height: 1.8rem; margin: 0; accent-color: var(--batch-edge); }
.row { display: flex; flex-wrap: wrap; align-items: center; gap: .4rem; font-size: .9rem; }
.row .skip { margin-left: auto; }
#place { font-variant-numeric: tabular-nums; }
.row button, .row select {
  font: inherit; color: inherit; background: var(--soft); border: 1px solid var(--edge);
  border-radius: 4px; padding: .3rem .6rem; min-height: 2.4rem; touch-action: manipulation;
}
#play { min-width: 4.4rem; }
#events { overflow: auto; height: 20rem; border: 1px solid var(--edge); margin: .5rem 0 1rem; }
table { border-collapse: collapse; width: 100%; table-layout: fixed; font-size: .85rem; }
thead th { position: sticky; top: 0; background: var(--soft); text-align: left; padding: .2rem .4rem; }
th:nth-child(1) { width: 3.8rem; text-align: right; }
th:nth-child(2) { width: 5rem; }
tbody tr.event { height: 1.75rem; cursor: pointer; }
tbody tr.event td {
  padding: 0 .4rem; white-space: nowrap; overflow: hidden; text-overflow: ellipsis; border-top: 1px solid var(--soft);
}
tbody td:first-child { text-align: right; font-variant-numeric: tabular-nums; }
tr.still { color: var(--dim); }
tr[aria-current] { background: var(--here); font-weight: 600; }
:focus-visible { outline: 3px solid var(--batch-edge); outline-offset: 2px; }
@media (min-width: 62rem) {
  main { display: grid; grid-template-columns: minmax(0, 1fr) 27rem; grid-template-rows: 1fr auto; column-gap: 1.5rem; }
  #stage { grid-column: 1; min-height: 60vh; }
  #controls { grid-column: 1; grid-row: 2; margin: 0; padding: .3rem 0 .5rem; }
  #events { grid-column: 2; grid-row: 1 / span 2; position: sticky; top: .5rem; height: calc(100vh - 1rem); margin: 0; }
}
@media (max-width: 62rem) {
  #told:not(.hint) { position: sticky; bottom: var(--controls); z-index: 1; min-height: 0; }
}
@media (max-width: 30rem) {
  h1 { font-size: 1.1rem; }
  h2 { font-size: 1rem; }
  body { padding: 0 .6rem; }
  dl { font-size: .9rem; }
  .row button, .row select { padding: .3rem .45rem; }
  #play { min-width: 3.9rem; }
  .pass { width: 5.7rem; margin-right: 1.1rem; font-size: .7rem; padding: .2rem .3rem; }
  #controls { margin: 0 -.6rem; padding: .3rem .6rem .5rem; }
  #told { font-size: .9rem; }
}
"##;
