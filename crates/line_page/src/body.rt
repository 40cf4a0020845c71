//! What the page consists of.
ghost use Rattle.std.specs.Prelude.{◌≡◌};
ghost use Rattle.line_page.specs.Texts.{body_text};

/// From the end of the style on to where the report begins.
#[tactic(auto, unfolding(crate::specs::Texts::body_text))]
pub fn body() -> &'static [u8]
    ensures { result.now ≡ body_text }
{
    BODY
}

const BODY: &[u8] = br##"</style>
</head>
<body>
<header>
<h1>A lock's queue, event by event</h1>
<p id="about">Without scripts this page shows the report as it is.</p>
</header>
<main>
<section id="stage" aria-labelledby="event">
<div id="said">
<h2 id="event"></h2>
<p id="changes" aria-live="polite"></p>
<code id="line"></code>
</div>
<dl>
<div><dt>Lock</dt><dd id="held"></dd></div>
<div><dt>Stealing</dt><dd id="stealing"></dd></div>
<div id="readers"><dt>Readers counted</dt><dd id="counted"></dd></div>
</dl>
<div class="groups">
<div class="group" role="group" aria-labelledby="holders-name">
<h3 id="holders-name">Holders</h3>
<div class="passes" id="holders"></div>
</div>
<div class="group" role="group" aria-labelledby="detached-name">
<h3 id="detached-name">Detached waiter</h3>
<div class="passes" id="detached"></div>
</div>
</div>
<div class="group" role="group" aria-labelledby="queue-name">
<h3 id="queue-name">Wait queue, its head first</h3>
<div class="passes" id="queue"></div>
</div>
<div class="group" role="group" aria-labelledby="others-name">
<h3 id="others-name">Other passes</h3>
<div class="passes" id="others"></div>
</div>
<p id="told"></p>
<details>
<summary>What the marks and keys mean</summary>
<ul>
<li>A box is a pass: square corners where it asked as a writer, round ones where it asked as a reader.</li>
<li><b>2 before</b>: two stand before it now; the detached waiter counts where it is put back before it.
<b>3 gone</b>: three have left the queue since it joined.</li>
<li><b>batch 2</b> on a filled box: the waiter is in the batch, which stands at the queue's front, and has this number.</li>
<li><b>shuffles</b> and a thick border: it rearranges the queue. <b>to shuffle</b> and a dashed one: its turn has come.</li>
<li><b>asleep</b> on a striped box: it sleeps until it is woken.</li>
<li>Left and right go an event back and on, Home and End to the first and the last, and the space bar plays. With <b>changes only</b>,
events that change nothing are passed over.</li>
</ul>
</details>
</section>
<section id="controls" aria-label="Which event is shown">
<div class="row">
<label for="at">Event</label>
<output id="place" for="at"></output>
<label class="skip"><input type="checkbox" id="skip"> changes only</label>
</div>
<svg id="lengths" aria-hidden="true" preserveAspectRatio="none"><title>How many wait at each event</title><path></path><line></line></svg>
<input type="range" id="at" step="1">
<div class="row">
<button type="button" id="first" aria-label="First event">&#x21E4;</button>
<button type="button" id="back" aria-label="Back">&#x2190;</button>
<button type="button" id="play">Play</button>
<button type="button" id="on" aria-label="On">&#x2192;</button>
<button type="button" id="last" aria-label="Last event">&#x21E5;</button>
<select id="speed" aria-label="Events a second">
<option value="1000">1/s</option>
<option value="250" selected>4/s</option>
<option value="60">16/s</option>
<option value="16">64/s</option>
</select>
</div>
</section>
<section id="events" tabindex="0" aria-label="Events">
<table>
<thead><tr><th scope="col">No.</th><th scope="col">Event</th><th scope="col">What changes</th></tr></thead>
<tbody id="rows"></tbody>
</table>
</section>
</main>
"##;
