//! The page of `ultra page`, before and after its data. `tests/tools/page.py --write` generates this file from page/.

use page_command::{Page, Window};
use symbol_table::SymbolTable;

/// The page that plays the steps in a window, with these names.
pub fn page<'a>(window: Window, symbols: Option<&'a SymbolTable<'a>>) -> Page<'a> {
    Page {
        front: front(),
        back: back(),
        window,
        symbols,
    }
}

/// What stands before the data.
fn front() -> &'static str {
    r##"<!DOCTYPE html>
<html lang="en">
<head>
<meta charset="utf-8">
<meta name="viewport" content="width=device-width, initial-scale=1">
<meta name="color-scheme" content="light dark">
<title>Ultracomputer</title>
<style>
:root {
--paper: #f6f5f1; --card: #fff; --ink: #1c2230; --faint: #5f6777; --line: #cfd3da; --wire: #b3bac6; --box: #fff;
--edge: #98a1b0;
--accent: #0b5fc4; --soft: #e4edf9; --ticket: #fff7d6; --live: #e0820a; --open: #fff;
}
@media (prefers-color-scheme: dark) {
:root:not([data-theme=light]) {
--paper: #12161d; --card: #1a202a; --ink: #eef1f6; --faint: #a3adbd; --line: #343d4b; --wire: #4a5566;
--box: #1d2430; --edge: #5a6678;
--accent: #7db4ff; --soft: #22324a; --ticket: #3a3418; --live: #ffb03b; --open: #10141b;
}
}
:root[data-theme=dark] {
--paper: #12161d; --card: #1a202a; --ink: #eef1f6; --faint: #a3adbd; --line: #343d4b; --wire: #4a5566;
--box: #1d2430; --edge: #5a6678;
--accent: #7db4ff; --soft: #22324a; --ticket: #3a3418; --live: #ffb03b; --open: #10141b;
}
:root[data-theme=dark] { color-scheme: dark; }
:root[data-theme=light] { color-scheme: light; }
* { box-sizing: border-box; }
[hidden] { display: none !important; }
html, body { height: 100%; margin: 0; }
body { display: flex; flex-direction: column; background: var(--paper); color: var(--ink);
font: 15px/1.4 system-ui, "Segoe UI", "DejaVu Sans", sans-serif; }
h1, h2, p, dl, dd, ul, figure { margin: 0; padding: 0; }
h1 { font-size: 18px; letter-spacing: .01em; }
h2 { font-size: 14px; margin: 8px 0 6px; }
.faint { color: var(--faint); font-weight: normal; font-size: 13px; }
code, .mono, #caption, .next, .order-line { font-family: ui-monospace, "DejaVu Sans Mono", Menlo, Consolas, monospace; }
.unseen { position: absolute; width: 1px; height: 1px; overflow: hidden; clip-path: inset(50%); white-space: nowrap; }
header { display: flex; align-items: center; gap: 16px; padding: 8px 16px; border-bottom: 1px solid var(--line);
background: var(--card); }
#machine { color: var(--faint); flex: 1; min-width: 0; overflow: hidden; text-overflow: ellipsis; white-space: nowrap; }
.tools, .group, .zoom { display: flex; gap: 6px; align-items: center; }
button, select, input[type=number] { font: inherit; font-size: 14px; color: inherit; background: var(--card);
border: 1px solid var(--line); border-radius: 7px; padding: 4px 10px; min-height: 32px; }
button { cursor: pointer; }
button:hover:not(:disabled) { border-color: var(--accent); color: var(--accent); }
button:disabled { opacity: .4; cursor: default; }
button[aria-pressed=true] { background: var(--soft); border-color: var(--accent); }
:focus-visible { outline: 3px solid var(--accent); outline-offset: 1px; }
main { flex: 1; min-height: 0; display: grid;
grid-template: minmax(0, 1fr) auto auto / minmax(0, 1fr) clamp(380px, 25vw, 480px); }
.alone main { grid-template-columns: minmax(0, 1fr); }
.alone aside { display: none; }
aside { grid-area: 1 / 2 / 4 / 3; border-left: 1px solid var(--line); background: var(--card); display: flex;
flex-direction: column; min-height: 0; padding: 10px 12px; }
.scene { position: relative; min-height: 0; overflow: hidden; }
#drawing { position: absolute; inset: 0; width: 100%; height: calc(100% - 50px); touch-action: none; cursor: grab;
user-select: none; }
#drawing text { fill: var(--ink); font-family: system-ui, "Segoe UI", "DejaVu Sans", sans-serif; }
#drawing [data-key] { cursor: pointer; }
#drawing :focus { outline: none; }
#drawing :focus-visible .box, #drawing :focus-visible .body, #drawing :focus-visible .ticket { stroke: var(--accent);
stroke-width: 4; }
.zoom { position: absolute; right: 12px; bottom: 10px; }
.zoom button { opacity: .92; }
.legend { position: absolute; left: 14px; right: 320px; bottom: 8px; list-style: none; display: flex;
flex-wrap: wrap; gap: 4px 16px; font-size: 13px; color: var(--faint); pointer-events: none; }
.legend li { display: flex; align-items: center; gap: 6px; }
.legend svg { width: 30px; height: 16px; }
.sign-request { fill: var(--accent); }
.sign-reply { fill: none; stroke: var(--accent); stroke-width: 2.5; }
.sign-record { fill: var(--ticket); stroke: var(--edge); stroke-dasharray: 4 2; stroke-width: 1.5; }
.mapped ~ .legend .sign-request { fill: #1f6fd6; }
.mapped ~ .legend .sign-reply { stroke: #b0342c; }
.mapped ~ .legend .sign-record { fill: #b58900; stroke: none; }
.sign-a { fill: #1f6fd6; }
.sign-b { fill: #bf4a12; }
.wires path, .wires line { fill: none; stroke: var(--wire); stroke-width: 2; }
.map .wires line { stroke-width: 1; opacity: .55; }
.wires .busy { stroke: var(--live); stroke-width: 5; }
.box { fill: var(--box); stroke: var(--edge); stroke-width: 1.5; }
.last .box { stroke: var(--live); stroke-width: 4; }
.chosen .box, .related .box { stroke: var(--accent); stroke-width: 3.5; }
.between { stroke: var(--line); stroke-dasharray: 5 5; }
.head { font-size: 17px; font-weight: 600; fill: var(--faint) !important; }
.wire-name { font-size: 12px; fill: var(--faint) !important; }
.strong { font-weight: 700; }
#drawing .light { fill: #fff; }
.state { font-size: 19px; font-weight: 600; }
.small { font-size: 15px; }
#drawing .faint { fill: var(--faint); }
#drawing .mono { font-family: ui-monospace, "DejaVu Sans Mono", Menlo, Consolas, monospace; font-size: 14px; }
#drawing .mono.faint { font-size: 12px; }
.value { font-size: 27px; font-weight: 700; }
.value.faint { font-size: 18px; font-weight: 500; }
.processor.halt .box, .processor.fault .box { stroke-dasharray: 6 4; }
.processor.halt { opacity: .62; }
.processor.fault .box { stroke: #d22; stroke-width: 3; }
#drawing .processor.fault .state { fill: #d22; }
.glyph { transform-box: view-box; }
.body.open { fill: var(--open); stroke-width: 3.5; }
.ticket { fill: var(--ticket); stroke-width: 2; stroke-dasharray: 5 2; }
.pointer { fill: none; stroke: var(--ink); stroke-width: 1.6; }
.dot { stroke: var(--box); stroke-width: 1; }
.times { font-size: 13px; font-weight: 700; }
.choosing .item:not(.related):not(.chosen) { opacity: .35; }
.chosen .body, .chosen .ticket { stroke: var(--live); stroke-width: 4; }
.related .ticket, .related .body:not(.open) { stroke: var(--live); stroke-width: 2.5; }
.large .legend { right: 390px; }
.heat { fill-opacity: 0; }
.heat.request { fill: #1f6fd6; }
.heat.record { fill: #b58900; }
.heat.reply { fill: #b0342c; }
.heat-count { font-size: 13px; font-weight: 600; pointer-events: none; }
.cell.busy .box { stroke: var(--live); stroke-width: 3.5; }
.end.run:not(.waits) text { fill: #fff !important; }
.end.waits .box { stroke-width: 3; }
.end.halt { opacity: .5; }
.end.fault .box { stroke: #d22 !important; stroke-width: 4; }
.end.used .box { fill: var(--soft); stroke: var(--accent); }
.end.busy .box { stroke: var(--live); stroke-width: 3.5; }
.talk { padding: 8px 18px 4px; border-top: 1px solid var(--line); background: var(--card); }
#caption { font-size: clamp(16px, 1.55vw, 26px); font-weight: 600; height: 1.5em; line-height: 1.5; overflow: hidden;
white-space: nowrap; text-overflow: ellipsis; }
#caption.long { font-size: 14px; height: auto; max-height: 54px; line-height: 1.25; overflow: auto; white-space: normal;
overflow-wrap: anywhere; }
.next { color: var(--faint); font-size: 13px; white-space: nowrap; overflow: hidden; text-overflow: ellipsis; }
.next span:first-child { font-family: system-ui, sans-serif; }
.controls { padding: 4px 18px 10px; background: var(--card); }
.way { position: relative; padding-top: 26px; }
#strip { position: absolute; left: 8px; right: 8px; top: 2px; width: calc(100% - 16px); height: 28px; }
.area { fill: var(--accent); opacity: .45; }
.ticks { fill: var(--live); }
#slider { display: block; width: 100%; margin: 0; position: relative; accent-color: var(--accent); }
.row { display: flex; flex-wrap: wrap; gap: 8px 18px; align-items: center; margin-top: 6px; }
.group button { padding: 4px 9px; display: flex; align-items: center; min-width: 38px; justify-content: center; }
.group button svg { width: 18px; height: 18px; fill: currentColor; stroke: currentColor; stroke-width: 2;
stroke-linejoin: round; }
#button-play { min-width: 56px; background: var(--accent); border-color: var(--accent); color: var(--card); }
#button-play .to-pause, #button-play.on .to-play { display: none; }
#button-play.on .to-pause { display: inline; }
#step-number { width: 86px; }
#event-word { width: 66px; }
#speed { width: 96px; vertical-align: middle; accent-color: var(--accent); }
#speed-text { display: inline-block; min-width: 118px; margin-left: 6px; color: var(--faint); font-size: 13px; }
#event-none { color: var(--live); font-size: 13px; }
#detail { border: 1px solid var(--line); border-radius: 9px; padding: 8px 10px; height: 208px; overflow: auto;
flex: none; resize: vertical; }
#detail.pinned { border-color: var(--live); }
.detail-row { display: grid; grid-template-columns: 84px 1fr; gap: 8px; font-size: 14px; padding: 1px 0; }
.detail-row dt { color: var(--faint); }
.detail-row dd { overflow-wrap: anywhere; }
[role=tablist] { display: flex; gap: 4px; margin: 10px 0 2px; flex: none; }
[role=tab] { flex: 1; padding: 4px 2px; border-radius: 7px 7px 0 0; border-bottom-width: 3px; }
[role=tab][aria-selected=true] { border-bottom-color: var(--accent); font-weight: 600; }
[role=tabpanel] { flex: 1; min-height: 0; display: flex; flex-direction: column; overflow: auto; }
.long { flex: 1; min-height: 0; overflow: auto; position: relative; }
.space { position: relative; }
.shown { position: absolute; left: 0; right: 0; top: 0; }
.order-line { display: flex; gap: 8px; align-items: center; width: 100%; height: 24px; min-height: 0; padding: 0 4px;
border: 0; border-radius: 4px; background: none; font-size: 12.5px; text-align: left; white-space: pre; }
.order-line.new { background: var(--soft); font-weight: 700; }
.order-line .faint { font-size: 11px; min-width: 34px; }
.order-line .text { flex: 1; overflow: hidden; text-overflow: ellipsis; }
.order-line .refers { flex: none; color: var(--accent); }
.own, .mark { flex: none; min-width: 22px; height: 18px; min-height: 0; line-height: 18px; padding: 0 3px; border: 0;
border-radius: 9px; background: var(--own, #777); color: #fff; font: 700 12px/18px system-ui, sans-serif;
text-align: center; }
#program-list { flex: 1 1 45%; min-height: 120px; overflow: auto; }
.program-line { display: flex; gap: 10px; align-items: center; min-height: 22px; font-size: 12.5px; white-space: pre;
padding: 1px 2px; border-radius: 4px; }
.program-line.here { background: var(--soft); }
.marks { display: flex; gap: 2px; width: 96px; flex: none; justify-content: flex-end; flex-wrap: wrap;
font-size: 12px; }
.address { color: var(--faint); }
.gap { color: var(--faint); padding-left: 108px; }
.program-label { padding-left: 108px; font-size: 12.5px; font-weight: 600; }
#register-table { flex: 1 1 45%; min-height: 120px; overflow: auto; display: grid; grid-template-columns: 1fr 1fr;
gap: 0 14px; align-content: start; }
.register { display: flex; justify-content: space-between; font-size: 13px; padding: 1px 4px; border-radius: 4px; }
.register.zero { opacity: .5; }
.register.changed { background: var(--soft); font-weight: 700; opacity: 1; }
.register-name { color: var(--faint); }
.standing-line { display: block; width: 100%; text-align: left; border: 0;
border-left: 6px solid var(--own, var(--line)); border-radius: 0; background: none; min-height: 0;
padding: 2px 8px; margin-bottom: 2px; font-size: 13.5px; }
.standing-line.record { font-style: italic; }
.chart { margin-bottom: 8px; }
.chart figcaption { display: flex; gap: 8px; font-size: 13px; align-items: baseline; }
.chart strong { margin-left: auto; }
.chart svg { width: 100%; height: 58px; background: var(--paper); border-radius: 6px; cursor: crosshair;
display: block; }
.chart.joins .area { fill: var(--live); }
.cursor { stroke: var(--ink); stroke-width: 2; vector-effect: non-scaling-stroke; }
.times { display: block; font-family: system-ui, sans-serif; }
svg.times { position: absolute; left: 0; top: 0; font-weight: 400; }
.times text { fill: var(--ink); font-size: 12px; }
.times .column { stroke: var(--line); }
.times .cover { fill: var(--card); }
.times .faint { fill: var(--faint); font-size: 11px; }
.saw { fill: none; stroke-width: 2; opacity: .75; }
.saw.before { stroke-dasharray: 4 4; }
.load { fill: var(--card); stroke-width: 3; }
.reference { cursor: pointer; }
dialog { max-width: 720px; border: 1px solid var(--line); border-radius: 12px; background: var(--card);
color: var(--ink); padding: 18px 24px; }
dialog::backdrop { background: #0007; }
dialog p { margin-bottom: 8px; }
dialog form { float: right; }
.keys { display: grid; grid-template-columns: 1fr 1fr; gap: 2px 24px; }
.keys div { display: flex; gap: 12px; }
.keys dt { min-width: 92px; font-weight: 600; }
@media (max-width: 900px) {
html, body { height: auto; }
main { display: block; }
.scene { height: 60vh; }
aside { border: 0; height: 90vh; }
.legend { display: none; }
}
@media (prefers-reduced-motion: no-preference) {
.item { transition: opacity .15s; }
}
@media print {
@page { size: landscape; margin: 10mm; }
:root, :root[data-theme=dark], :root:not([data-theme=light]) { --paper: #fff; --card: #fff; --ink: #000;
--faint: #444; --line: #bbb; --wire: #999; --box: #fff; --edge: #555; --soft: #eee; --ticket: #fff; --open: #fff;
--live: #b60; color-scheme: light; }
* { print-color-adjust: exact; -webkit-print-color-adjust: exact; }
html, body { height: auto; }
.tools, .controls, aside, .zoom, .next { display: none !important; }
main { display: block; }
.scene { height: 150mm; }
.legend { position: static; }
#drawing { position: static; height: 140mm; }
}
</style>
</head>
<body>
<header>
<h1>Ultracomputer</h1>
<p id="machine"></p>
<div class="tools">
<button type="button" data-does="base" id="button-base" title="decimal or hex (d)"
aria-label="base of values">decimal</button>
<button type="button" data-does="theme" id="button-theme" title="light or dark (l)">light / dark</button>
<button type="button" data-does="panels" id="button-panels" aria-pressed="true"
title="panels beside the drawing (p)">panels</button>
<button type="button" data-does="print" id="button-print" title="print this moment">print</button>
<button type="button" data-does="help" id="button-help" title="keys and signs (?)">help</button>
</div>
</header>
<main>
<section class="scene" aria-label="the machine">
<svg id="drawing" role="group" aria-label="the machine"></svg>
<div class="zoom" role="group" aria-label="zoom">
<button type="button" data-does="map" id="button-map" aria-pressed="false"
title="map of all switches (m)">map</button>
<button type="button" data-does="compact" id="button-compact" aria-pressed="false"
title="only where something stands (k)">only what stands</button>
<button type="button" data-does="farther" title="smaller (-)" aria-label="smaller">&minus;</button>
<button type="button" data-does="fit" title="all of it (f)" aria-label="all of it">fit</button>
<button type="button" data-does="closer" title="larger (+)" aria-label="larger">+</button>
</div>
<ul class="legend" aria-label="signs">
<li><svg viewBox="0 0 34 18" aria-hidden="true"><path class="sign-request"
d="M1 2H25L33 9L25 16H1Z"/></svg>request, to memory</li>
<li><svg viewBox="0 0 34 18" aria-hidden="true"><path class="sign-reply"
d="M9 2H25A7 7 0 0 1 25 16H9L1 9Z"/></svg>reply, back</li>
<li><svg viewBox="0 0 34 18" aria-hidden="true"><rect class="sign-record" x="1" y="2" width="32" height="14"
rx="3"/></svg>record of a combination</li>
<li><svg viewBox="0 0 34 18" aria-hidden="true"><circle class="sign-a" cx="9" cy="9" r="5"/><circle
class="sign-b" cx="24" cy="9" r="5"/></svg>for whom, in order of service</li>
</ul>
</section>
<section class="talk" aria-label="what the step did">
<p id="caption"></p>
<p class="next"><span>next</span> <span id="next-line"></span></p>
<p id="said" class="unseen" aria-live="polite"></p>
</section>
<section class="controls" aria-label="controls">
<div class="way">
<svg id="strip" preserveAspectRatio="none" aria-hidden="true"></svg>
<input type="range" id="slider" min="0" value="0" step="1" aria-label="step">
</div>
<div class="row">
<div class="group" role="group" aria-label="steps">
<button type="button" data-does="first" id="button-first" aria-label="first step" title="first (Home)">
<svg viewBox="0 0 20 20"><path d="M4 3v14M16 3L7 10l9 7z"/></svg></button>
<button type="button" data-does="back" id="button-back" aria-label="step back" title="step back (left)">
<svg viewBox="0 0 20 20"><path d="M14 3L5 10l9 7z"/></svg></button>
<button type="button" data-does="play" id="button-play" aria-label="play" aria-pressed="false"
title="play or pause (space)"><svg viewBox="0 0 20 20"><path class="to-play" d="M5 2l12 8-12 8z"/><path
class="to-pause" d="M5 3h3v14h-3zM12 3h3v14h-3z"/></svg></button>
<button type="button" data-does="forth" id="button-forth" aria-label="step" title="step (right)">
<svg viewBox="0 0 20 20"><path d="M6 3l9 7-9 7z"/></svg></button>
<button type="button" data-does="last" id="button-last" aria-label="last step" title="last (End)">
<svg viewBox="0 0 20 20"><path d="M16 3v14M4 3l9 7-9 7z"/></svg></button>
</div>
<label>after <input type="number" id="step-number" min="0" value="0"> steps</label>
<label class="speed">speed <input type="range" id="speed" min="0" value="1" step="1"><span
id="speed-text"></span></label>
<div class="group events" role="group" aria-label="jump to an event">
<button type="button" data-does="last-event" id="button-last-event" title="the one before (b)"
aria-label="event before"><svg viewBox="0 0 20 20"><path d="M14 3L5 10l9 7z"/></svg></button>
<select id="event-kind" aria-label="kind of event">
<option value="join">combination</option><option value="serve">service</option><option
value="retire">retirement</option>
<option value="stop">stop</option><option value="split">split</option><option
value="send">reference</option><option value="poke">write from outside</option>
</select>
<select id="event-processor" aria-label="of which processor"><option value="-1">any processor</option></select>
<label>word <input type="number" id="event-word" min="0" placeholder="any" aria-label="to which word"></label>
<button type="button" data-does="next-event" id="button-next-event" title="the next one (n)"
aria-label="next event"><svg viewBox="0 0 20 20"><path d="M6 3l9 7-9 7z"/></svg></button>
<span id="event-none" role="status"></span>
</div>
</div>
</section>
<aside id="side" aria-label="beside the drawing">
<section id="detail" class="empty" aria-label="detail"><dl id="detail-list"></dl></section>
<div role="tablist" aria-label="panels">
<button type="button" role="tab" id="tab-order" aria-controls="panel-order" aria-selected="true">Order</button>
<button type="button" role="tab" id="tab-program" aria-controls="panel-program" aria-selected="false"
tabindex="-1">Program</button>
<button type="button" role="tab" id="tab-standing" aria-controls="panel-standing" aria-selected="false"
tabindex="-1">Network</button>
<button type="button" role="tab" id="tab-charts" aria-controls="panel-charts" aria-selected="false"
tabindex="-1">Charts</button>
<button type="button" role="tab" id="tab-timeline" aria-controls="panel-timeline" aria-selected="false"
tabindex="-1">Timeline</button>
</div>
<section role="tabpanel" id="panel-order" aria-labelledby="tab-order">
<h2>Serial order <span id="order-count" class="faint"></span></h2>
<div id="order-list" class="long" tabindex="0" aria-label="serial order"></div>
</section>
<section role="tabpanel" id="panel-program" aria-labelledby="tab-program" hidden>
<h2>Program, as far as executed</h2>
<div id="program-list"></div>
<h2>Registers of <select id="register-processor" aria-label="registers of"></select></h2>
<p id="register-heading" class="mono"></p>
<div id="register-table"></div>
</section>
<section role="tabpanel" id="panel-standing" aria-labelledby="tab-standing" hidden>
<h2>What stands in the network</h2>
<div id="standing"></div>
</section>
<section role="tabpanel" id="panel-charts" aria-labelledby="tab-charts" hidden>
<h2>Over the run <span class="faint">a click goes there</span></h2>
<div id="charts"></div>
</section>
<section role="tabpanel" id="panel-timeline" aria-labelledby="tab-timeline" hidden>
<h2>Who saw whose value <select id="timeline-word" aria-label="references to"><option
value="-1">all words</option></select></h2>
<p class="faint">Full: a store or fetch-and-phi. Open: a load. An arrow leads from what
wrote a value to each reference that saw it.</p>
<div id="timeline" class="long" tabindex="0" aria-label="timeline"></div>
</section>
</aside>
</main>
<dialog id="help" aria-labelledby="help-title">
<form method="dialog"><button class="close" aria-label="close">close</button></form>
<h2 id="help-title">What this shows</h2>
<p>Processors on the left refer to words of shared memory on the right. In a switch, requests for the same word can be
<em>combined</em>: one goes on for both, and a <em>record</em> stays in the wait buffer. The module <em>serves</em>
the group by one request. On the way back the record <em>splits</em> the reply: each processor finds what it would
have found if the requests had come one after the other.</p>
<p>A message has the colour and the number of the processor that <em>leads</em> it, and grows with the processors for
which it stands. Its dots are these processors, in the order in which they are served. A record <b>2 &larr; 1 +5</b>
says that 2 waits for 1, and finds what 1 finds, plus 5.</p>
<h2>Keys</h2>
<dl class="keys">
<div><dt>space</dt><dd>play, pause</dd></div>
<div><dt>&larr; &rarr;</dt><dd>step back, step</dd></div>
<div><dt>PgUp PgDn</dt><dd>ten steps</dd></div>
<div><dt>Home End</dt><dd>first, last</dd></div>
<div><dt>&uarr; &darr;</dt><dd>faster, slower</dd></div>
<div><dt>g</dt><dd>go to a step</dd></div>
<div><dt>c</dt><dd>next combination</dd></div>
<div><dt>s</dt><dd>next service</dd></div>
<div><dt>r</dt><dd>next retirement</dd></div>
<div><dt>h</dt><dd>next stop</dd></div>
<div><dt>Shift</dt><dd>with c s r h: the one before</dd></div>
<div><dt>n b</dt><dd>next event of the chosen kind, the one before</dd></div>
<div><dt>d</dt><dd>decimal or hex</dd></div>
<div><dt>l</dt><dd>light or dark</dd></div>
<div><dt>p</dt><dd>panels, or the drawing alone</dd></div>
<div><dt>m</dt><dd>map of a large machine</dd></div>
<div><dt>k</dt><dd>only what stands</dd></div>
<div><dt>+ - f</dt><dd>larger, smaller, all</dd></div>
<div><dt>Tab</dt><dd>to the next thing; Enter keeps its detail, Esc lets go</dd></div>
<div><dt>?</dt><dd>this help</dd></div>
</dl>
</dialog>
<script type="text/plain" id="data">
"##
}

/// What stands after it.
fn back() -> &'static str {
    r##"</script>
<script>
(function () {
'use strict';
function unescaped(text) {
return text.indexOf('%') < 0 ? text : text.replace(/%3c/g, '<').replace(/%25/g, '%');
}
function startsOfLines(text) {
const starts = [0];
for (let at = text.indexOf('\n'); at >= 0; at = text.indexOf('\n', at + 1)) starts.push(at + 1);
return Uint32Array.from(starts);
}
function numberAfter(line, name) {
const found = new RegExp('(?:^| )' + name + ' (\\d+)').exec(line);
if (!found) throw new Error('the data has no ' + name + ' in: ' + line);
return Number(found[1]);
}
function symbolOf(line) {
return { address: parseInt(line.slice(0, 8), 16), size: parseInt(line.slice(9, 17), 16), name: line.slice(18) };
}
function readData(element) {
const raw = element.textContent;
const text = raw.charCodeAt(0) === 10 ? raw.slice(1) : raw;
const starts = startsOfLines(text);
const lines = starts.length - 1;
const line = (i) => unescaped(text.slice(starts[i], starts[i + 1] - 1));
if (lines < 4 || line(0) !== 'ultra page 1') throw new Error('this page holds no run that it can read');
const machine = line(1);
const k = numberAfter(machine, 'k');
const steps = numberAfter(line(2), 'steps'), named = numberAfter(line(2), 'symbols'), begin = 3 + named;
return {
machine, k, n: 1 << k, steps, first: numberAfter(line(2), 'from'), all: numberAfter(line(2), 'of'),
c: numberAfter(machine, 'c'), b: numberAfter(machine, 'b'), r: numberAfter(machine, 'r'),
words: numberAfter(line(2), 'words'),
symbols: Array.from({ length: named }, (_, i) => symbolOf(line(3 + i))),
opening: line(begin),
change: (i) => line(begin + 1 + i),
story: (i) => line(begin + 1 + steps + i),
order: (i) => line(begin + 1 + 2 * steps + i),
orders: Math.max(0, lines - begin - 1 - 2 * steps),
};
}
const names = { symbols: [] };
function placeOfAddress(address) {
let low = 0, high = names.symbols.length;
while (low < high) {
const middle = (low + high) >> 1;
if (names.symbols[middle].address <= address) low = middle + 1; else high = middle;
}
const it = names.symbols[low - 1];
if (!it || it.size > 0 && address - it.address >= it.size) return null;
return { name: it.name, offset: address - it.address };
}
function placeText(place, letters) {
const offset = place.offset ? '+0x' + place.offset.toString(16) : '';
const room = Math.max(0, letters - offset.length);
return (place.name.length <= room ? place.name : place.name.slice(0, Math.max(0, room - 2)) + '..') + offset;
}
function placeOfWord(word) {
return word < 0x20000000 ? placeOfAddress(0x80000000 + 4 * word) : null;
}
function pcText(pc) {
const place = placeOfAddress(parseInt(pc, 16));
return place ? placeText(place, 24) : pc;
}
function wordName(word) {
const place = placeOfWord(word);
return place ? placeText(place, 24) : 'word ' + word;
}
function wordTitle(word) {
const place = placeOfWord(word);
return 'word ' + word + (place ? ' (' + placeText(place, Infinity) + ')' : '');
}
function withWordNames(line) {
return names.symbols.length ? line.replace(/\bword (\d+)\b/g, (it, number) => wordTitle(Number(number))) : line;
}
function emptyView(data) {
return {
n: data.n, k: data.k,
pc: new Array(data.n).fill('00000000'),
status: new Array(data.n).fill('run'),
word: new Int32Array(data.n).fill(-1),
registers: new Uint32Array(32 * data.n),
words: new Map(),
places: new Array((data.k + 1) * data.n).fill(''),
};
}
function copyOfView(view) {
return {
n: view.n, k: view.k,
pc: view.pc.slice(), status: view.status.slice(), word: view.word.slice(), registers: view.registers.slice(),
words: new Map(view.words), places: view.places.slice(),
};
}
function setProcessor(view, p, value) {
const state = value.slice(9);
const open = /^(\d+)$/.exec(state);
view.pc[p] = value.slice(0, 8);
view.status[p] = open || state === '' ? 'run' : state;
view.word[p] = open ? Number(open[1]) : -1;
}
function putChanges(view, line, placed) {
let at = 0;
for (let end = line.indexOf('\t'); end >= 0; end = line.indexOf('\t', at)) {
const equals = line.indexOf('=', at);
const name = line.slice(at, equals);
const value = line.slice(equals + 1, end);
const dot = name.indexOf('.');
const x = name.indexOf('x');
if (dot >= 0) {
const place = Number(name.slice(0, dot)) * view.n + Number(name.slice(dot + 1));
view.places[place] = value;
if (placed) placed(place, value);
} else if (name[0] === 'w') {
view.words.set(Number(name.slice(1)), parseInt(value, 16));
} else if (x >= 0) {
view.registers[32 * Number(name.slice(0, x)) + Number(name.slice(x + 1))] = parseInt(value, 16);
} else {
setProcessor(view, Number(name), value);
}
at = end + 1;
}
}
const placeCache = new Map();
function itemsIn(text) {
const items = { requests: [], records: [], replies: [] };
for (const it of text.split(/(?=[?&!])/)) {
const colon = it.indexOf(':');
if (it[0] === '?') {
const sign = it.indexOf('@');
items.requests.push({ f: it.slice(1, sign), word: Number(it.slice(sign + 1, colon)),
leader: Number(it.slice(colon + 1)) });
} else if (it[0] === '&') {
const comma = it.indexOf(',');
items.records.push({ second: Number(it.slice(1, comma)), leader: Number(it.slice(comma + 1, colon)),
f: it.slice(colon + 1) });
} else if (it[0] === '!') {
items.replies.push({ value: parseInt(it.slice(1, colon), 16), leader: Number(it.slice(colon + 1)) });
}
}
return items;
}
function itemsAt(view, depth, wire) {
const text = view.places[depth * view.n + wire];
let items = placeCache.get(text);
if (!items) {
if (placeCache.size > 5000) placeCache.clear();
items = itemsIn(text);
placeCache.set(text, items);
}
return items;
}
function secondsOf(view) {
const stages = [];
for (let stage = 0; stage < view.k; stage++) {
const seconds = new Map();
for (let wire = 0; wire < view.n; wire++) {
for (const it of itemsAt(view, stage + 1, wire).records) {
if (!seconds.has(it.leader)) seconds.set(it.leader, []);
seconds.get(it.leader).push(it.second);
}
}
stages.push(seconds);
}
return stages;
}
function groupOf(seconds, depth, leader) {
let group = [leader];
for (let stage = depth - 1; stage >= 0; stage--) {
if (seconds[stage].size) group = group.flatMap((p) => [p].concat(seconds[stage].get(p) || []));
}
return group;
}
function rotatedLeft(k, wire) {
return k ? (wire << 1 | wire >> (k - 1)) & ((1 << k) - 1) : wire;
}
function rotatedRight(k, wire) {
return k ? wire >> 1 | (wire & 1) << (k - 1) : wire;
}
function wireAfter(k, stage, wire, module) {
return rotatedLeft(k, wire) & ~1 | module >> (k - 1 - stage) & 1;
}
function wireBefore(k, stage, wire, processor) {
return rotatedRight(k, wire & ~1 | processor >> (k - 1 - stage) & 1);
}
let decimal = true;
function hex8(value) {
return (value >>> 0).toString(16).padStart(8, '0');
}
function valueText(value) {
return decimal ? String(value | 0) : hex8(value);
}
function shortValue(value) {
return decimal ? String(value | 0) : (value >>> 0).toString(16);
}
function withValues(text) {
return decimal ? text.replace(/\b[0-9a-f]{8}\b/g, (it) => String(parseInt(it, 16) | 0)) : text;
}
function storyText(line) {
const poke = /^(\d+ poke \S+ [0-9a-f]{8}\b)(.*)$/.exec(line);
return withWordNames(poke ? poke[1] + withValues(poke[2]) : withValues(line));
}
function orderText(line) {
const parts = /^(\S+ \S+ (?:poke )?\S+)(.*)$/.exec(line);
return withWordNames(parts ? parts[1] + withValues(parts[2]) : line);
}
const shortSigns = { store: '=', and: '&', or: '|', xor: '^', min: 'min ', max: 'max ', minu: 'minu ', maxu: 'maxu ' };
function shortFunction(f) {
return f.replace(/([a-z]+) ([0-9a-f]{8})/g, (all, name, digits) => {
const value = parseInt(digits, 16);
if (name === 'add') return (value >>> 31 ? '-' : '+') + (decimal ? Math.abs(value | 0)
: Math.abs(value | 0).toString(16));
return shortSigns[name] + shortValue(value);
});
}
function groupText(group) {
const shown = group.length > 8 ? group.slice(0, 4).join(' ') + ' .. ' + group.length : group.join(' ');
return '{' + shown + '}';
}
function requestText(it, group) {
return withValues(it.f) + (it.f === 'load' ? ' ' : ' to ') + wordName(it.word) + ' ' + groupText(group);
}
function recordText(it) {
return it.second + ' waits for ' + it.leader + ': ' + withValues(it.f);
}
function replyText(it, group) {
return 'reply ' + valueText(it.value) + ' ' + groupText(group);
}
function processorText(view, p) {
return p + ' ' + view.status[p] + ' ' + pcText(view.pc[p]) + (view.word[p] >= 0 ? ' ' + wordName(view.word[p]) : '');
}
function wordText(word, value) {
return wordName(word) + ' = ' + valueText(value);
}
function shortWord(word) {
return placeOfWord(word) ? wordName(word) : 'w' + word;
}
function count(number, one, many) {
return number + ' ' + (number === 1 ? one : many || one + 's');
}
function make(name, attributes, text) {
const element = document.createElement(name);
for (const it in attributes || {}) element.setAttribute(it, attributes[it]);
if (text !== undefined) element.textContent = text;
return element;
}
function draw(name, attributes, text) {
const element = document.createElementNS('http://www.w3.org/2000/svg', name);
for (const it in attributes || {}) element.setAttribute(it, attributes[it]);
if (text !== undefined) element.textContent = text;
return element;
}
function byId(id) {
return document.getElementById(id);
}
const firstColours = ['#1f6fd6', '#bf4a12', '#188043', '#8a3fc0', '#8d6400', '#0b7d8e', '#c42f7e', '#56657a'];
function colourOf(p) {
return p < 8 ? firstColours[p] : 'hsl(' + Math.round(p * 137.5 % 360) + ' 62% 34%)';
}
const SEND = 1, RETIRE = 2, STOP = 3, MOVE = 4, JOIN = 5, SERVE = 6, BACK = 7, SPLIT = 8, POKE = 9;
const kindNames = { join: [JOIN], serve: [SERVE], retire: [RETIRE], stop: [STOP], split: [SPLIT], send: [SEND],
poke: [POKE] };
function outcomeOf(line) {
const colon = line.indexOf(': ');
const head = line.slice(0, colon).split(' ');
const text = line.slice(colon + 2);
const a = Number(head[2]), b = Number(head[3]);
if (head[1] === 'turn') {
const kind = text.startsWith('sends') ? SEND : text.startsWith('stops') ? STOP : RETIRE;
const word = kind === SEND ? /to word (\d+)$/.exec(text) || /word (\d+)$/.exec(text) : null;
return { kind, p: a, word: word ? Number(word[1]) : -1 };
}
if (head[1] === 'up') {
const joined = /^(\d+) joins (\d+) /.exec(text);
if (!joined) return { kind: MOVE, stage: a, wire: b };
return { kind: JOIN, stage: a, wire: b, second: Number(joined[1]), leader: Number(joined[2]) };
}
if (head[1] === 'down') {
const split = /^answers ([\d ]+) at stage/.exec(text);
if (!split) return { kind: BACK, stage: a, wire: b };
return { kind: SPLIT, stage: a, wire: b, seconds: split[1].split(' ').map(Number) };
}
if (head[1] === 'serve') {
const served = /^serves \d+: ([\d ]+): word (\d+) ([0-9a-f]{8}) to ([0-9a-f]{8})/.exec(text);
if (served) {
return { kind: SERVE, module: a, group: served[1].split(' ').map(Number), word: Number(served[2]),
before: parseInt(served[3], 16), after: parseInt(served[4], 16) };
}
}
const address = head[2] === '-' ? parseInt(head[3], 16) : 0;
return { kind: POKE, p: head[2] === '-' ? -1 : a, word: head[2] === '-' ? (address - 0x80000000) >>> 2 : -1 };
}
function orderedBy(line) {
const parts = /^(\d+) (\S+) (poke )?(\S+) (.*)$/.exec(line);
const reference = / word (\d+) ([0-9a-f]{8}) ([0-9a-f]{8})$/.exec(line);
const poke = Boolean(parts[3]);
const text = parts[5].replace(/ word \d+ [0-9a-f]{8} [0-9a-f]{8}$/, '');
return {
number: Number(parts[1]), p: parts[2] === '-' ? -1 : Number(parts[2]), poke, pc: poke ? '' : parts[4],
instruction: poke ? 'poke ' + parts[4] + ' ' + text : text.replace(/( = [0-9a-f]{8})?( console [0-9a-f]{2})?$/, ''),
result: (/ = ([0-9a-f]{8})/.exec(text) || [])[1],
console: (/ console ([0-9a-f]{2})/.exec(text) || [])[1],
word: reference ? Number(reference[1]) : -1,
before: reference ? parseInt(reference[2], 16) : 0, after: reference ? parseInt(reference[3], 16) : 0,
};
}
function makeHistory(data) {
const every = Math.max(64, Math.ceil(data.steps / 400));
const n = data.n, k = data.k, steps = data.steps;
const opening = emptyView(data);
putChanges(opening, data.opening);
const scan = copyOfView(opening);
const checkpoints = [opening];
const facts = {
known: 0,
kind: new Uint8Array(steps), word: new Int32Array(steps).fill(-1),
low: new Uint32Array(steps), high: new Uint32Array(steps), // the processors that a step concerns, as bits
orderStep: new Uint32Array(data.orders), ordered: 0, // the step at which each order line came to be
afterStep: new Uint32Array(steps + 1), // how many order lines there are after so many steps
moving: new Uint16Array(steps + 1), // messages on their way
queues: Array.from({ length: k }, () => new Uint16Array(steps + 1)),
listing: new Map(), // pc -> { text, from: the first order line }
references: [],
refersAt: new Uint32Array(steps + 1),
prints: [],
};
const groupLow = new Uint32Array(n), groupHigh = new Uint32Array(n), openWord = new Int32Array(n).fill(-1);
const requests = new Uint16Array((k + 1) * n), replies = new Uint16Array((k + 1) * n);
const longest = [new Uint16Array(k + 1), new Uint16Array(k + 1)]; // of requests and of replies at each depth
const lastWriter = new Map();
let moving = 0;
const marks = (text, mark) => {
let found = 0;
for (let at = text.indexOf(mark); at >= 0; at = text.indexOf(mark, at + 1)) found++;
return found;
};
function placed(place, text) {
const up = marks(text, '?'), down = marks(text, '!'), depth = Math.floor(place / n);
moving += up + down - requests[place] - replies[place];
requests[place] = up;
replies[place] = down;
longest[0][depth] = longest[1][depth] = 0;
for (let it = depth * n; it < depth * n + n; it++) {
if (requests[it] > longest[0][depth]) longest[0][depth] = requests[it];
if (replies[it] > longest[1][depth]) longest[1][depth] = replies[it];
}
}
function begin() {
const seconds = secondsOf(opening);
for (let place = 0; place < opening.places.length; place++) {
if (!opening.places[place]) continue;
placed(place, opening.places[place]);
const depth = Math.floor(place / n), items = itemsAt(opening, depth, place % n);
for (const it of items.requests.concat(items.replies)) {
for (const p of groupOf(seconds, depth, it.leader)) {
if (p < 32) groupLow[it.leader] |= 1 << p; else groupHigh[it.leader] |= 1 << (p - 32);
}
}
}
openWord.set(opening.word);
facts.moving[0] = moving;
for (let it = 0; it < k; it++) facts.queues[it][0] = Math.max(longest[0][it + 1], longest[1][it]);
}
function leaderAt(depth, wire, mark) {
const text = scan.places[depth * n + wire];
const at = text ? text.indexOf(mark) : -1;
return at < 0 ? -1 : parseInt(text.slice(text.indexOf(':', at) + 1), 10);
}
function concern(i, p) {
if (p < 32) facts.low[i] |= 1 << p; else facts.high[i] |= 1 << (p - 32);
}
function concernGroup(i, leader) {
if (leader < 0) return;
facts.low[i] |= groupLow[leader];
facts.high[i] |= groupHigh[leader];
facts.word[i] = openWord[leader];
}
function addReference(line, it) {
const loads = /^l[bhw]/.test(it.instruction);
const writes = !loads;
const stores = it.poke || /^s[bhw] /.test(it.instruction);
const saw = !stores && lastWriter.has(it.word) ? lastWriter.get(it.word) : -1;
if (writes) lastWriter.set(it.word, facts.references.length);
facts.references.push({ order: line, word: it.word, p: it.p, saw, writes });
}
function addOrderLine(i) {
const at = facts.ordered;
if (at >= data.orders) return;
facts.orderStep[at] = i;
facts.ordered = at + 1;
const it = orderedBy(data.order(at));
if (!it.poke && !facts.listing.has(it.pc)) facts.listing.set(it.pc, { text: it.instruction, from: at });
if (it.word >= 0) addReference(at, it);
if (it.console) facts.prints.push({ order: at, p: it.p, byte: parseInt(it.console, 16) });
}
function learn(i) {
const outcome = outcomeOf(data.story(i));
facts.kind[i] = outcome.kind;
if (outcome.p >= 0) concern(i, outcome.p);
if (outcome.kind === SEND) {
openWord[outcome.p] = facts.word[i] = outcome.word;
groupLow[outcome.p] = groupHigh[outcome.p] = 0;
if (outcome.p < 32) groupLow[outcome.p] = 1 << outcome.p; else groupHigh[outcome.p] = 1 << (outcome.p - 32);
} else if (outcome.kind === RETIRE || outcome.kind === STOP) {
if (openWord[outcome.p] < 0) addOrderLine(i);
else facts.word[i] = openWord[outcome.p];
openWord[outcome.p] = -1;
} else if (outcome.kind === MOVE) {
concernGroup(i, leaderAt(outcome.stage, outcome.wire, '?'));
} else if (outcome.kind === JOIN) {
groupLow[outcome.leader] |= groupLow[outcome.second];
groupHigh[outcome.leader] |= groupHigh[outcome.second];
concernGroup(i, outcome.leader);
} else if (outcome.kind === SERVE) {
for (const p of outcome.group) { concern(i, p); addOrderLine(i); }
facts.word[i] = outcome.word;
} else if (outcome.kind === POKE) {
facts.word[i] = outcome.word;
addOrderLine(i);
} else {
const leader = leaderAt(outcome.stage + 1, outcome.wire, '!');
concernGroup(i, leader);
for (const p of outcome.seconds || []) { groupLow[leader] &= ~groupLow[p]; groupHigh[leader] &= ~groupHigh[p]; }
}
putChanges(scan, data.change(i), placed);
facts.moving[i + 1] = moving;
for (let it = 0; it < k; it++) facts.queues[it][i + 1] = Math.max(longest[0][it + 1], longest[1][it]);
facts.afterStep[i + 1] = facts.ordered;
facts.refersAt[i + 1] = facts.references.length;
facts.known = i + 1;
if (facts.known % every === 0) checkpoints.push(copyOfView(scan));
}
function reach(step) {
while (facts.known < step) learn(facts.known);
}
function learnAll(then) {
const until = performance.now() + 24;
while (facts.known < steps && performance.now() < until) reach(Math.min(steps, facts.known + 100));
then(facts.known === steps);
if (facts.known < steps) setTimeout(() => learnAll(then), 4);
}
begin();
let view = copyOfView(opening);
let shown = 0;
function seek(step) {
if (step === shown) return view;
const base = Math.floor(step / every);
if (step < shown || base * every > shown) {
reach(base * every);
view = copyOfView(checkpoints[base]);
shown = base * every;
}
while (shown < step) putChanges(view, data.change(shown++));
reach(step);
return view;
}
function find(from, forwards, kinds, p, w) {
const wanted = new Uint8Array(16);
for (const it of kinds) wanted[it] = 1;
for (let i = forwards ? from : from - 2; i >= 0 && i < steps; i += forwards ? 1 : -1) {
if (i >= facts.known) reach(i + 1);
if (wanted[facts.kind[i]] && (w < 0 || facts.word[i] === w) && (p < 0 || concerns(i, p))) return i;
}
return -1;
}
function concerns(i, p) {
return Boolean((p < 32 ? facts.low[i] >>> p : facts.high[i] >>> (p - 32)) & 1);
}
function consoleOf(p, step) {
const bytes = facts.prints.filter((it) => it.p === p && it.order < facts.afterStep[step]).map((it) => it.byte);
return bytes.map((it) => (it >= 32 && it < 127 && it !== 92 ? String.fromCharCode(it)
: it === 10 ? '\\n' : '\\x' + it.toString(16).padStart(2, '0'))).join('');
}
return { data, facts, seek, reach, learnAll, find, concerns, consoleOf };
}
const rowHeight = 92, emptyHeight = 26;
const processorWidth = 222, switchWidth = 214, moduleWidth = 214, narrowWidth = 96;
function standsIn(view, column, row) {
const k = view.k;
if (column === 0) return itemsAt(view, 0, row).requests.length > 0;
const after = column <= k ? view.places[column * view.n + row] : '';
const before = column <= k ? itemsAt(view, column - 1, rotatedRight(k, row)) : itemsAt(view, k, row);
if (column > k) return before.replies.length > 0 || openWordsOf(view, row).length > 0;
const items = after ? itemsIn(after) : null;
return before.replies.length > 0 || Boolean(items && items.requests.length + items.records.length);
}
function openWordsOf(view, module) {
const words = [];
for (const word of view.word) {
if (word >= 0 && word % view.n === module && !words.includes(word)) words.push(word);
}
return words;
}
function makeLayout(k, view) {
const n = 1 << k, gap = 36 + 8 * k;
const it = { k, n, x: [], w: [], y: [], h: [], top: 40 };
let x = 20;
for (let column = 0; column <= k + 1; column++) {
const high = [];
for (let row = 0; row < n; row++) high.push(!view || standsIn(view, column, row));
const narrow = view && column > 0 && column <= k && !high.includes(true);
it.x.push(x);
it.w.push(narrow ? narrowWidth : column === 0 ? processorWidth : column <= k ? switchWidth : moduleWidth);
x += it.w[column] + gap;
const h = high.map((is) => is ? rowHeight : emptyHeight);
let y = it.top;
it.h.push(h);
it.y.push(h.map((height) => (y += height) - height));
}
it.width = x - gap + 20;
it.height = Math.max(...it.y.map((ys, column) => ys[n - 1] + it.h[column][n - 1])) + 16;
return it;
}
function middleOf(layout, column, row) {
return layout.y[column][row] + layout.h[column][row] / 2;
}
function rowBefore(layout, column, row) {
return column <= layout.k ? rotatedRight(layout.k, row) : row;
}
function inQueue(widths, first, room, direction) {
const total = widths.reduce((sum, w) => sum + w + 4, 0);
const squeeze = total > room ? Math.max(0.2, (room - widths[widths.length - 1]) / Math.max(1,
total - widths[widths.length - 1])) : 1;
let at = first;
return widths.map((w) => {
const middle = at + direction * w / 2;
at += direction * (w + 4) * squeeze;
return middle;
});
}
function requestSpots(layout, depth, wire, widths) {
const right = layout.x[depth] + layout.w[depth] - 6;
const room = depth === 0 ? 100 : layout.w[depth] - 12;
const y = layout.y[depth][wire] + layout.h[depth][wire] * (depth === 0 ? 0.5 : 0.68);
return inQueue(widths, right, room, -1).map((x) => ({ x, y }));
}
function replySpots(layout, depth, wire, widths) {
const column = depth + 1;
const row = depth < layout.k ? rotatedLeft(layout.k, wire) : wire;
const room = layout.w[column] - 12;
const y = layout.y[column][row] + layout.h[column][row] * (depth < layout.k ? 0.25 : 0.5);
return inQueue(widths, layout.x[column] + 6, room, 1).map((x) => ({ x, y }));
}
function recordSpot(layout, depth, wire, number, width) {
const column = number >> 1, h = layout.h[depth][wire];
return {
x: layout.x[depth] + layout.w[depth] - 6 - width / 2 - Math.min(column, 1.4) * (width + 3),
y: layout.y[depth][wire] + (number & 1 ? 0.41 : 0.17) * h,
};
}
function sizeFor(members) {
return Math.min(1.42, 1 + 0.1 * Math.log2(members));
}
function glyphWidth(text, members) {
return Math.round((text.length * 13 + 48) * sizeFor(members));
}
function disc(p, x, y, r, filled) {
const colour = colourOf(p);
const g = draw('g', {});
g.append(draw('circle', { cx: x, cy: y, r, fill: filled ? colour : '#fff', stroke: filled ? '#fff' : colour,
'stroke-width': 1.5 }));
g.append(draw('text', { x, y: y + r * 0.38, 'text-anchor': 'middle', 'font-size': r * 1.15, style: 'fill:'
+ (filled ? '#fff' : colour), class: 'strong' }, String(p)));
return g;
}
function dotsOf(group, width, y) {
const g = draw('g', {});
if (group.length === 1) return g;
if (group.length > 8) {
g.append(draw('text', { x: 0, y: y + 5, 'text-anchor': 'middle', class: 'times' }, '\u00d7' + group.length));
return g;
}
const pitch = Math.min(11, width / group.length);
group.forEach((p, i) => {
g.append(draw('circle', { cx: (i - (group.length - 1) / 2) * pitch, cy: y, r: 4.6, fill: colourOf(p),
class: 'dot' }));
});
return g;
}
function messageGlyph(kind, text, leader, group) {
const size = sizeFor(group.length), h = 34 * size, w = glyphWidth(text, group.length);
const g = draw('g', { class: 'glyph' });
const tip = 12 * size, left = -w / 2, right = w / 2;
const request = kind === 'request';
if (request) {
const path = `M${left} ${-h / 2}H${right - tip}L${right} 0L${right - tip} ${h / 2}H${left}Z`;
g.append(draw('path', { d: path, fill: colourOf(leader), class: 'body' }));
} else {
const end = right - h / 2, corner = left + tip;
const path = `M${corner} ${-h / 2}H${end}A${h / 2} ${h / 2} 0 0 1 ${end} ${h / 2}H${corner}L${left} 0Z`;
g.append(draw('path', { d: path, stroke: colourOf(leader), class: 'body open' }));
}
const r = 11 * size, x = request ? left + r + 4 : right - r - 5;
g.append(disc(leader, x, 0, r, !request));
const middle = request ? (x + r + right - tip * 0.5) / 2 : (left + tip * 0.6 + x - r) / 2;
const label = draw('text', { x: middle, y: 7.6 * size, 'text-anchor': 'middle', 'font-size': 21.5 * size,
class: request ? 'strong light' : 'strong' }, text);
g.append(label, dotsOf(group, w - 4, h / 2 + 5));
return g;
}
const recordHeight = 21;
function recordWidth(text) {
return Math.round(text.length * 10 + 60);
}
function recordGlyph(it, text) {
const w = recordWidth(text), h = recordHeight;
const g = draw('g', { class: 'glyph' });
g.append(draw('rect', { x: -w / 2, y: -h / 2, width: w, height: h, rx: 3, class: 'ticket',
stroke: colourOf(it.leader) }));
g.append(disc(it.second, -w / 2 + 10, 0, 8, true));
g.append(draw('path', { d: `M${-w / 2 + 20} 0h7m-7 0l3 -3m-3 3l3 3`, class: 'pointer' }));
g.append(disc(it.leader, -w / 2 + 37, 0, 8, false));
g.append(draw('text', { x: -w / 2 + 50, y: 5.6, 'font-size': 16, class: 'strong' }, text));
return g;
}
function statusText(view, p) {
if (view.word[p] >= 0) return 'waits: ' + wordName(view.word[p]);
return view.status[p] === 'run' ? 'runs' : view.status[p];
}
function processorGlyph(view, p, x, y, w, h, instruction) {
const g = draw('g', { class: 'processor ' + view.status[p].split(' ')[0] + (view.word[p] >= 0 ? ' waits' : '') });
const low = h < 40;
g.append(draw('rect', { x, y: y + 2, width: w, height: h - 4, rx: 8, class: 'box' }));
g.append(disc(p, x + (low ? 16 : 24), y + h / 2, low ? 9 : 17, true));
if (low) {
g.append(draw('text', { x: x + 34, y: y + h / 2 + 5, class: 'small' }, statusText(view, p)));
return g;
}
g.append(draw('text', { x: x + 49, y: y + 27, class: 'state' }, statusText(view, p)));
g.append(draw('text', { x: x + 49, y: y + 51, class: 'mono' }, pcText(view.pc[p])));
const shown = view.status[p] !== 'run' ? '' : instruction.length > 24 ? instruction.slice(0, 23) + '\u2026'
: instruction;
g.append(draw('text', { x: x + 49, y: y + 75, class: 'mono faint' }, shown));
return g;
}
function moduleGlyph(module, x, y, w, h) {
const g = draw('g', { class: 'module' });
g.append(draw('rect', { x, y: y + 2, width: w, height: h - 4, rx: 8, class: 'box' }));
g.append(draw('text', { x: x + w - 10, y: y + (h < 40 ? h / 2 + 5 : 20), 'text-anchor': 'end', class: 'small' },
'module ' + module));
return g;
}
function wordGlyph(word, value, isOpen) {
const g = draw('g', { class: 'word' + (isOpen ? ' open' : '') });
const text = draw('text', { x: 0, y: 0, 'text-anchor': 'end', class: isOpen ? 'value' : 'value faint' },
shortValue(value));
g.append(draw('text', { x: -Math.max(1, shortValue(value).length) * (isOpen ? 18.5 : 11.5) - 8, y: 0,
'text-anchor': 'end', class: 'small' }, wordName(word) + ' ='), text);
return g;
}
function switchGlyph(layout, column, row) {
const x = layout.x[column], y = layout.y[column][row], w = layout.w[column];
const h = layout.h[column][row] + layout.h[column][row + 1];
const g = draw('g', { class: 'switch' });
g.append(draw('rect', { x, y: y + 3, width: w, height: h - 6, rx: 8, class: 'box' }));
g.append(draw('line', { x1: x + 10, x2: x + w - 10, y1: y + layout.h[column][row], y2: y + layout.h[column][row],
class: 'between' }));
for (const at of [row, row + 1]) {
g.append(draw('text', { x: x + w + 4, y: middleOf(layout, column, at) - 5, class: 'wire-name' }, String(at)));
}
return g;
}
const stage = { layout: null, parts: {}, items: new Map(), keyed: new Map(), compact: false };
function setUpStage(svg) {
stage.svg = svg;
stage.camera = draw('g', { class: 'camera' });
for (const it of ['wires', 'heads', 'switches', 'processors', 'modules', 'words', 'items', 'ghosts']) {
stage.parts[it] = draw('g', { class: it });
stage.camera.append(stage.parts[it]);
}
svg.append(stage.camera);
}
function columnName(k, column) {
return column === 0 ? 'processors' : column <= k ? 'stage ' + (column - 1) : 'modules';
}
function wirePath(layout, column, row) {
const before = rowBefore(layout, column, row);
return { x1: layout.x[column - 1] + layout.w[column - 1], y1: middleOf(layout, column - 1, before),
x2: layout.x[column], y2: middleOf(layout, column, row) };
}
function drawFrame(layout) {
const { wires, heads, switches } = stage.parts;
wires.replaceChildren();
heads.replaceChildren();
switches.replaceChildren();
for (let column = 0; column <= layout.k + 1; column++) {
heads.append(draw('text', { x: layout.x[column] + layout.w[column] / 2, y: layout.top - 12,
'text-anchor': 'middle', class: 'head' }, columnName(layout.k, column)));
for (let row = 0; row < layout.n; row++) {
if (column > 0) {
const p = wirePath(layout, column, row), bend = (p.x2 - p.x1) * 0.45;
wires.append(draw('path',
{ d: `M${p.x1} ${p.y1}C${p.x1 + bend} ${p.y1} ${p.x2 - bend} ${p.y2} ${p.x2} ${p.y2}`, 'data-wire': column
+ '.' + row }));
}
if (column > 0 && column <= layout.k && row % 2 === 0) {
const g = switchGlyph(layout, column, row);
keep(g, 's' + (column - 1) + '.' + row / 2, 'stage ' + (column - 1) + ', switch of wires ' + row + ' and '
+ (row + 1));
switches.append(g);
}
}
}
}
function keep(element, key, text) {
element.setAttribute('data-key', key);
element.setAttribute('role', 'img');
element.setAttribute('tabindex', '0');
element.setAttribute('aria-label', text);
stage.keyed.set(key, element);
}
function itemsOf(view, layout) {
const seconds = secondsOf(view);
const items = [];
for (let depth = 0; depth <= view.k; depth++) {
for (let wire = 0; wire < view.n; wire++) {
if (view.places[depth * view.n + wire] === '') continue;
const here = itemsAt(view, depth, wire);
const add = (kind, it, extra) => items.push(Object.assign({ kind, depth, wire, it, leader: it.leader }, extra));
const requests = here.requests.map((it) => ({ group: groupOf(seconds, depth, it.leader),
short: shortFunction(it.f) }));
const replies = here.replies.map((it) => ({ group: groupOf(seconds, depth, it.leader),
short: shortValue(it.value) }));
const spots = layout && requestSpots(layout, depth, wire, requests.map((x) => glyphWidth(x.short,
x.group.length)));
const backs = layout && replySpots(layout, depth, wire, replies.map((x) => glyphWidth(x.short, x.group.length)));
here.replies.forEach((it, i) => add('reply', it, Object.assign(replies[i], { key: 'm' + it.leader,
text: replyText(it, replies[i].group), spot: backs && backs[i] })));
here.records.forEach((it, i) => add('record', it, { key: 'r' + it.second, text: recordText(it),
short: shortFunction(it.f),
spot: layout && recordSpot(layout, depth, wire, i, recordWidth(shortFunction(it.f))) }));
here.requests.forEach((it, i) => add('request', it, Object.assign(requests[i], { key: 'm' + it.leader,
text: requestText(it, requests[i].group), spot: spots && spots[i] })));
}
}
return items;
}
function drawView(view, instructionAt) {
const layout = !stage.compact && stage.layout && !stage.layout.compact ? stage.layout : makeLayout(view.k,
stage.compact ? view : null);
layout.compact = stage.compact;
if (layout !== stage.layout) {
stage.layout = layout;
stage.keyed.clear();
drawFrame(layout);
}
drawProcessors(view, layout, instructionAt);
drawModules(view, layout);
const items = itemsOf(view, layout);
const seen = new Map();
for (const it of items) {
const old = stage.items.get(it.key);
const looks = it.kind + it.short + (it.group || '') + it.leader;
let element = old && old.looks === looks ? old.element : null;
if (!element) {
element = draw('g', { class: 'item ' + it.kind });
element.append(it.kind === 'record' ? recordGlyph(it.it, it.short) : messageGlyph(it.kind, it.short, it.leader,
it.group));
stage.parts.items.append(element);
}
keep(element, it.key, it.text);
element.setAttribute('data-text', it.text);
element.setAttribute('transform', `translate(${it.spot.x.toFixed(1)} ${it.spot.y.toFixed(1)})`);
seen.set(it.key, Object.assign(it, { element, looks }));
}
const before = stage.items;
for (const [key, old] of before) {
const now = seen.get(key);
if (!now || now.element !== old.element) old.element.remove();
if (!now) stage.keyed.delete(key);
}
stage.items = seen;
return before;
}
function drawProcessors(view, layout, instructionAt) {
const part = stage.parts.processors;
for (let p = 0; p < view.n; p++) {
const old = part.children[p];
const instruction = instructionAt(view.pc[p]);
const looks = [processorText(view, p), instruction, layout.y[0][p], layout.h[0][p]].join('|');
if (old && old.getAttribute('data-looks') === looks) { stage.keyed.set('p' + p, old); continue; }
const g = processorGlyph(view, p, layout.x[0], layout.y[0][p], layout.w[0], layout.h[0][p], instruction);
g.setAttribute('data-looks', looks);
keep(g, 'p' + p, processorText(view, p));
g.setAttribute('data-text', processorText(view, p));
if (old) old.replaceWith(g); else part.append(g);
}
}
function wordsByModule(view) {
const words = new Map();
for (const [word, value] of view.words) {
if (value === 0) continue;
if (!words.has(word % view.n)) words.set(word % view.n, []);
words.get(word % view.n).push(word);
}
return words;
}
function wordsShown(view, module, words) {
const open = openWordsOf(view, module);
const others = (words.get(module) || []).filter((word) => !open.includes(word));
return { open, others: others.sort((a, b) => a - b) };
}
function drawModules(view, layout) {
const { modules, words } = stage.parts;
const column = view.k + 1, x = layout.x[column], w = layout.w[column];
const known = wordsByModule(view);
words.replaceChildren();
for (const key of stage.keyed.keys()) if (key[0] === 'w') stage.keyed.delete(key);
if (modules.layout !== layout) modules.replaceChildren();
modules.layout = layout;
for (let module = 0; module < view.n; module++) {
const y = layout.y[column][module], h = layout.h[column][module];
if (modules.children.length <= module) {
const g = moduleGlyph(module, x, y, w, h);
keep(g, 'd' + module, 'module ' + module);
modules.append(g);
}
stage.keyed.set('d' + module, modules.children[module]);
if (h < 40) continue;
const { open, others } = wordsShown(view, module, known);
const room = open.concat(others.slice(0, Math.max(0, 2 - open.length)));
room.forEach((word, i) => {
const g = wordGlyph(word, view.words.get(word) || 0, i < open.length);
keep(g, 'w' + word, wordText(word, view.words.get(word) || 0));
g.setAttribute('data-text', wordText(word, view.words.get(word) || 0));
const pitch = Math.min(28, 48 / Math.max(1, room.length - 1));
g.setAttribute('transform', `translate(${x + w - 10} ${y + (room.length === 1 ? 60 : 47 + i * pitch)})`);
words.append(g);
});
}
}
const running = new Set();
function stopMotion() {
for (const it of running) it.cancel();
running.clear();
stage.parts.ghosts.replaceChildren();
for (const it of document.querySelectorAll('.scene .busy')) it.classList.remove('busy');
}
function animate(element, frames, time, delay, then) {
const it = element.animate(frames, { duration: time, delay: delay || 0, easing: 'ease-in-out', fill: 'backwards' });
running.add(it);
it.onfinish = () => { running.delete(it); if (then) then(); };
}
function frame(at, more) {
return Object.assign({ transform: `translate(${at.x}px, ${at.y}px)` }, more);
}
function columnOf(it, k) {
return it.kind === 'reply' ? it.depth + 1 : it.depth;
}
function alongWire(layout, column, row, back) {
const p = wirePath(layout, column, row);
const ends = [{ x: p.x1, y: p.y1 }, { x: p.x2, y: p.y2 }];
return back ? ends.reverse() : ends;
}
function busyWire(column, row) {
for (const it of stage.parts.wires.querySelectorAll(`[data-wire="${column}.${row}"]`)) it.classList.add('busy');
}
function ghostOf(old) {
const g = old.element.cloneNode(true);
for (const it of ['data-key', 'data-text', 'tabindex', 'role', 'aria-label']) g.removeAttribute(it);
g.setAttribute('aria-hidden', 'true');
stage.parts.ghosts.append(g);
return g;
}
function pulse(element, time, delay) {
const glyph = element.querySelector('.glyph, .value') || element;
animate(glyph, [{ transform: 'scale(1)' }, { transform: 'scale(1.3)' }, { transform: 'scale(1)' }], time, delay);
}
function showMotion(outcome, before, time) {
const layout = stage.layout, k = layout.k, now = stage.items;
const gone = (key, path, part) => {
const g = ghostOf(before.get(key));
const frames = path.map((at) => frame(at, { opacity: 1 }));
frames[frames.length - 1].opacity = 0.15;
animate(g, frames, time * part, 0, () => g.remove());
};
const come = (it, path, delay) => animate(it.element, path.map((at, i) => frame(at, { opacity: i ? 1 : 0 })),
time - delay, delay);
if (outcome.kind === SEND) {
const it = now.get('m' + outcome.p);
if (it) come(it, [{ x: layout.x[0] + 24, y: it.spot.y }, it.spot], 0);
} else if (outcome.kind === MOVE || outcome.kind === JOIN) {
const key = outcome.kind === JOIN ? 'm' + outcome.second : [...now.keys()].find((it) => {
const old = before.get(it), item = now.get(it);
return old && old.kind === 'request' && item.depth === outcome.stage + 1 && old.depth === outcome.stage
&& old.wire === outcome.wire;
});
const old = key && before.get(key);
if (!old) return;
const target = outcome.kind === JOIN ? now.get('m' + outcome.leader) : now.get(key);
if (!target) return;
const row = rotatedLeft(k, outcome.wire);
busyWire(outcome.stage + 1, row);
const path = [old.spot, ...alongWire(layout, outcome.stage + 1, row), target.spot];
if (outcome.kind === MOVE) {
animate(target.element, path.map((at) => frame(at)), time);
} else {
gone(key, path, 0.75);
pulse(target.element, time * 0.4, time * 0.6);
const record = now.get('r' + outcome.second);
if (record) come(record, [target.spot, record.spot], time * 0.65);
}
} else if (outcome.kind === SERVE) {
const key = 'm' + outcome.group[0], old = before.get(key), it = now.get(key);
if (!old || !it) return;
const column = k + 1, inside = { x: layout.x[column] + layout.w[column] * 0.7, y: it.spot.y };
busyWire(column, outcome.module);
gone(key, [old.spot, ...alongWire(layout, column, outcome.module), inside], 0.6);
come(it, [inside, it.spot], time * 0.55);
const word = stage.keyed.get('w' + outcome.word);
if (word) pulse(word, time * 0.5, time * 0.5);
} else if (outcome.kind === BACK || outcome.kind === SPLIT) {
showReturn(outcome, before, time, come, gone);
} else if (outcome.kind === RETIRE && before.has('m' + outcome.p) && !now.has('m' + outcome.p)) {
const old = before.get('m' + outcome.p);
const row = k ? rotatedLeft(k, outcome.p) : outcome.p;
busyWire(1, row);
const home = { x: layout.x[0] + 24, y: middleOf(layout, 0, outcome.p) };
gone('m' + outcome.p, [old.spot, ...alongWire(layout, 1, row, true), home], 0.9);
}
}
function showReturn(outcome, before, time, come, gone) {
const layout = stage.layout, depth = outcome.stage + 1, column = depth + 1;
const row = depth < layout.k ? rotatedLeft(layout.k, outcome.wire) : outcome.wire;
const lead = [...before.values()].find((old) => {
const now = stage.items.get(old.key);
return old.kind === 'reply' && old.depth === depth && old.wire === outcome.wire && now && now.depth === depth - 1;
});
if (!lead) return;
busyWire(column, row);
const way = [lead.spot, ...alongWire(layout, column, row, true)];
const it = stage.items.get(lead.key);
animate(it.element, [...way, it.spot].map((at) => frame(at)), time);
for (const p of outcome.seconds || []) {
const record = before.get('r' + p), reply = stage.items.get('m' + p);
if (!record || !reply) continue;
gone('r' + p, [record.spot, record.spot, way[2]], 0.62);
come(reply, [way[2], reply.spot], time * 0.6);
}
}
const camera = { x: 0, y: 0, scale: 1, fitted: true };
function placeCamera() {
const t = `translate(${camera.x.toFixed(2)} ${camera.y.toFixed(2)}) scale(${camera.scale.toFixed(4)})`;
stage.camera.setAttribute('transform', t);
}
function drawnSize() {
return mapShown() ? map.size : stage.layout;
}
function sceneSize() {
const box = stage.svg.getBoundingClientRect();
return { width: box.width || 1000, height: box.height || 600 };
}
function fitCamera() {
const scene = sceneSize(), size = drawnSize();
if (!size) return;
camera.scale = Math.min(scene.width / size.width, scene.height / size.height, 1.8);
camera.x = (scene.width - size.width * camera.scale) / 2;
camera.y = Math.max(0, (scene.height - size.height * camera.scale) / 2);
camera.fitted = true;
placeCamera();
}
function zoomCamera(factor, x, y) {
const scene = sceneSize();
const cx = x === undefined ? scene.width / 2 : x, cy = y === undefined ? scene.height / 2 : y;
const scale = Math.min(6, Math.max(0.05, camera.scale * factor));
camera.x = cx - (cx - camera.x) * scale / camera.scale;
camera.y = cy - (cy - camera.y) * scale / camera.scale;
camera.scale = scale;
camera.fitted = false;
placeCamera();
}
function lookAt(x, y, scale) {
const scene = sceneSize();
camera.scale = scale;
camera.x = scene.width / 2 - x * scale;
camera.y = scene.height / 2 - y * scale;
camera.fitted = false;
placeCamera();
}
function moveCamera(dx, dy) {
camera.x += dx;
camera.y += dy;
camera.fitted = false;
placeCamera();
}
function setUpCamera() {
const svg = stage.svg;
const held = new Map(); // pointers that are down
svg.addEventListener('wheel', (event) => {
event.preventDefault();
const box = svg.getBoundingClientRect();
zoomCamera(Math.exp(-event.deltaY * (event.deltaMode ? 0.05 : 0.0015)), event.clientX - box.left,
event.clientY - box.top);
}, { passive: false });
svg.addEventListener('pointerdown', (event) => {
held.set(event.pointerId, { x: event.clientX, y: event.clientY });
svg.dragged = false;
});
svg.addEventListener('pointermove', (event) => {
const last = held.get(event.pointerId);
if (!last) return;
const dx = event.clientX - last.x, dy = event.clientY - last.y;
if (!svg.dragged && Math.abs(dx) + Math.abs(dy) < 4) return;
if (!svg.dragged) { svg.dragged = true; svg.setPointerCapture(event.pointerId); }
if (held.size === 2) {
const other = [...held].find(([id]) => id !== event.pointerId)[1];
const was = Math.hypot(last.x - other.x, last.y - other.y), is = Math.hypot(event.clientX - other.x,
event.clientY - other.y);
const box = svg.getBoundingClientRect();
zoomCamera(is / Math.max(1, was), (event.clientX + other.x) / 2 - box.left,
(event.clientY + other.y) / 2 - box.top);
} else {
moveCamera(dx, dy);
}
held.set(event.pointerId, { x: event.clientX, y: event.clientY });
});
const release = (event) => held.delete(event.pointerId);
for (const it of ['pointerup', 'pointercancel', 'pointerleave']) svg.addEventListener(it, release);
new ResizeObserver(() => { if (camera.fitted) fitCamera(); }).observe(svg);
}
const map = { on: false, size: null, cells: [], part: null };
function mapShown() {
return map.on;
}
const cellWidth = 104, cellHeight = 22, cellPitch = 27, mapTop = 44;
function setUpMap(k) {
const n = 1 << k, half = Math.max(1, n / 2);
map.k = k;
map.left = (column) => column === 0 ? 20 : 130 + (column - 1) * (cellWidth + 34);
map.size = { width: map.left(k + 1) + 176, height: mapTop + half * cellPitch + 16 };
map.part = draw('g', { class: 'map' });
stage.camera.append(map.part);
for (let column = 0; column <= k + 1; column++) {
map.part.append(draw('text', { x: map.left(column) + (column === 0 || column > k ? 42 : cellWidth / 2),
y: mapTop - 14, 'text-anchor': 'middle', class: 'head' }, columnName(k, column)));
}
const wires = draw('g', { class: 'wires' });
for (let column = 1; column < k; column++) {
for (let row = 0; row < n; row++) {
const before = rotatedRight(k, row);
wires.append(draw('line', { x1: map.left(column) + cellWidth, y1: mapTop + (before >> 1) * cellPitch
+ cellHeight * (before & 1 ? 0.7 : 0.3),
x2: map.left(column + 1), y2: mapTop + (row >> 1) * cellPitch + cellHeight * (row & 1 ? 0.7 : 0.3) }));
}
}
map.part.append(wires);
for (let stage = 0; stage < k; stage++) for (let row = 0; row < half; row++) map.cells.push(makeCell(stage, row));
map.ends = [];
for (let it = 0; it < n; it++) {
map.ends.push({
processor: makeEnd('p' + it, map.left(0) + (it >= half ? 44 : 0), mapTop + (it % half) * cellPitch, 38),
module: makeEnd('d' + it, map.left(k + 1) + (it & 1 ? 78 : 0), mapTop + (it >> 1) * cellPitch, 72),
});
}
}
function makeCell(stageNumber, row) {
const x = map.left(stageNumber + 1), y = mapTop + row * cellPitch;
const g = draw('g', { class: 'cell', 'data-key': 's' + stageNumber + '.' + row, role: 'button', tabindex: '0' });
g.append(draw('rect', { x, y, width: cellWidth, height: cellHeight, rx: 4, class: 'box' }));
const parts = ['reply', 'record', 'request'].map((kind, i) => {
const rect = draw('rect', { x: x + 2 + i * (cellWidth - 4) / 3, y: y + 2, width: (cellWidth - 4) / 3,
height: cellHeight - 4, rx: 3, class: 'heat ' + kind });
const text = draw('text', { x: x + 2 + (i + 0.5) * (cellWidth - 4) / 3, y: y + 16, 'text-anchor': 'middle',
class: 'heat-count' });
g.append(rect, text);
return { rect, text };
});
map.part.append(g);
return { stage: stageNumber, row, g, parts };
}
function makeEnd(key, x, y, width) {
const g = draw('g', { class: 'end', 'data-key': key, role: 'button', tabindex: '0' });
const rect = draw('rect', { x, y, width, height: cellHeight, rx: 11, class: 'box' });
const text = draw('text', { x: x + width / 2, y: y + 16, 'text-anchor': 'middle', class: 'heat-count' });
g.append(rect, text);
map.part.append(g);
return { g, rect, text };
}
function setCount(part, number) {
part.text.textContent = number ? String(number) : '';
part.rect.style.fillOpacity = number ? Math.min(1, 0.25 + 0.19 * number) : 0;
part.text.classList.toggle('light', number > 2);
}
function switchCounts(view, stageNumber, row) {
const counts = [0, 0, 0];
for (const wire of [2 * row, 2 * row + 1]) {
const after = itemsAt(view, stageNumber + 1, wire);
counts[0] += itemsAt(view, stageNumber, rotatedRight(view.k, wire)).replies.length;
counts[1] += after.records.length;
counts[2] += after.requests.length;
}
return counts;
}
function drawMap(view, outcome) {
for (const it of map.cells) {
const counts = switchCounts(view, it.stage, it.row);
counts.forEach((number, i) => setCount(it.parts[i], number));
it.g.classList.toggle('busy', Boolean(outcome) && outcome.stage === it.stage && switchOfMove(view.k,
outcome) === it.row);
it.g.setAttribute('aria-label', switchText(it.stage, it.row, counts));
}
map.ends.forEach((it, i) => {
it.processor.text.textContent = String(i);
it.processor.g.setAttribute('class', 'end ' + view.status[i].split(' ')[0] + (view.word[i] >= 0 ? ' waits' : ''));
it.processor.rect.style.fill = view.status[i] === 'run' && view.word[i] < 0 ? colourOf(i) : '';
it.processor.rect.style.stroke = colourOf(i);
it.processor.g.setAttribute('aria-label', processorText(view, i));
const open = openWordsOf(view, i);
const replies = itemsAt(view, view.k, i).replies.length;
it.module.text.textContent = open.length ? 'w' + open[0] + '=' + shortValue(view.words.get(open[0])
|| 0).slice(-7) : String(i);
it.module.g.setAttribute('class', 'end' + (open.length ? ' used' : '') + (replies ? ' replies' : '')
+ (outcome && outcome.module === i ? ' busy' : ''));
it.module.g.setAttribute('aria-label', 'module ' + i + open.map((word) => ', ' + wordText(word,
view.words.get(word) || 0)).join(''));
});
}
function switchText(stageNumber, row, counts) {
return 'stage ' + stageNumber + ', switch of wires ' + 2 * row + ' and ' + (2 * row + 1) + ': ' + count(counts[2],
'request') + ', '
+ count(counts[1], 'record') + ', ' + count(counts[0], 'reply', 'replies');
}
function switchOfMove(k, outcome) {
return outcome.kind === MOVE || outcome.kind === JOIN ? rotatedLeft(k, outcome.wire) >> 1 : outcome.wire >> 1;
}
function showMap(on) {
map.on = on && Boolean(map.part);
if (map.part) map.part.style.display = map.on ? '' : 'none';
for (const it in stage.parts) stage.parts[it].style.display = map.on ? 'none' : '';
stage.svg.classList.toggle('mapped', map.on);
}
const detail = { pinned: null, key: null };
function bothBases(value) {
return (value | 0) + ' (hex ' + hex8(value) + ')';
}
function whereText(it, k) {
if (it.kind === 'reply') {
if (it.depth === k) return 'in the slot of module ' + it.wire;
return 'at an input of stage ' + it.depth + ', from where it goes to ' + (it.depth === 0 ? 'processor ' + it.wire
: 'wire ' + it.wire + ' after stage ' + (it.depth - 1));
}
if (it.kind === 'record') return 'in the wait buffer of stage ' + (it.depth - 1) + ', output to wire ' + it.wire;
return it.depth === 0 ? 'in the slot of processor ' + it.wire : 'in the output queue of stage ' + (it.depth - 1)
+ ' to wire ' + it.wire;
}
function itemFor(items, p) {
return items.find((it) => it.kind !== 'record' && it.group.includes(p));
}
function tellItem(it, view) {
if (it.kind === 'record') {
const { second, leader, f } = it.it;
return [['What', 'wait record'], ['Text', it.text], ['Where', whereText(it, view.k)],
['Second', 'processor ' + second + ' waits here'], ['Leader', 'processor ' + leader + ': its reply splits here'],
['Function', f + ', of what ' + leader + ' finds']];
}
const members = count(it.group.length, 'processor') + ': ' + it.group.join(' ');
const request = it.kind === 'request';
const rows = [['What', request ? 'request, on its way to memory' : 'reply, on its way back'], ['Text', it.text],
['Where', whereText(it, view.k)], ['Leader', 'processor ' + it.leader],
['Stands for', it.group.length > 1 ? members + ' (in the order of service)' : members]];
if (!request) return rows.concat([['Value', bothBases(it.it.value)], ['Word', wordTitle(view.word[it.leader])]]);
const { word, f } = it.it;
const now = bothBases(view.words.get(word) || 0);
return rows.concat([['Word', wordTitle(word) + ', of module ' + word % view.n + ', now ' + now], ['Function', f]]);
}
function tellProcessor(p, view, items, run) {
const rows = [['What', 'processor ' + p], ['Text', processorText(view, p)]];
const instruction = run.instructionAt(view.pc[p]), printed = run.consoleNow(p);
if (names.symbols.length) rows.push(['Program counter', view.pc[p]]);
if (instruction && view.status[p] === 'run') rows.push(['Instruction', instruction]);
if (view.word[p] >= 0) {
const it = itemFor(items, p);
rows.push(['Waits for', wordTitle(view.word[p])]);
if (it) rows.push(['Its message', it.text + ', ' + whereText(it, view.k)]);
}
if (printed) rows.push(['Console', printed]);
return rows;
}
function tellSwitch(key, view, items) {
const [stageNumber, row] = key.slice(1).split('.').map(Number);
const counts = switchCounts(view, stageNumber, row);
const rows = [['What', switchText(stageNumber, row, counts)]];
for (const it of items) {
const mine = it.kind === 'reply' ? it.depth === stageNumber && rotatedLeft(view.k, it.wire) >> 1 === row
: it.depth === stageNumber + 1 && it.wire >> 1 === row;
if (mine) rows.push([it.kind, it.text]);
}
return rows;
}
function tellWord(word, view) {
const waiting = [];
view.word.forEach((it, p) => { if (it === word) waiting.push(p); });
return [['What', wordTitle(word) + ', of module ' + word % view.n], ['Text', wordText(word, view.words.get(word)
|| 0)],
['Value', bothBases(view.words.get(word) || 0)], ['Waiting', waiting.length ? 'processors ' + waiting.join(' ')
: 'nobody']];
}
function tell(key, view, items, run) {
const number = Number(key.slice(1));
if (key[0] === 'm' || key[0] === 'r') {
const it = items.find((x) => x.key === key);
return it ? tellItem(it, view) : null;
}
if (key[0] === 'p') return tellProcessor(number, view, items, run);
if (key[0] === 'w') return tellWord(number, view);
if (key[0] === 's') return tellSwitch(key, view, items);
if (key[0] !== 'd') return null;
const shown = wordsShown(view, number, wordsByModule(view));
const words = shown.open.concat(shown.others.slice(0, 12));
return [['What', 'module ' + number], ...words.map((word) => ['Word', wordText(word, view.words.get(word) || 0)])];
}
function markRelated(key, items) {
const marked = document.querySelectorAll('.scene .related, .scene .chosen');
for (const it of marked) it.classList.remove('related', 'chosen');
stage.svg.classList.toggle('choosing', /^[mrp]/.test(key || ''));
if (!key) return;
const related = new Set([key]);
const number = Number(key.slice(1));
const message = /^[pr]/.test(key) ? itemFor(items, number) : items.find((it) => key[0] === 'm' && it.key === key);
if (message) {
related.add(message.key);
for (const p of message.group) { related.add('p' + p); if (p !== message.leader) related.add('r' + p); }
if (message.kind === 'request') related.add('w' + message.it.word);
}
for (const it of related) {
const element = stage.keyed.get(it);
if (element) element.classList.add(it === key ? 'chosen' : 'related');
}
}
function showDetail(key, view, items, run) {
const list = byId('detail-list');
const rows = key ? tell(key, view, items, run) : null;
detail.key = rows ? key : null;
markRelated(detail.key, items);
list.replaceChildren();
byId('detail').classList.toggle('empty', !rows);
byId('detail').classList.toggle('pinned', Boolean(rows) && detail.pinned === key);
if (!rows) {
list.append(make('p', { class: 'faint' },
'Point at anything in the drawing, or go there by Tab; a click keeps it here.'));
return;
}
for (const [name, text] of rows) {
const row = make('div', { class: 'detail-row' });
row.append(make('dt', {}, name), make('dd', {}, text));
list.append(row);
}
}
const lineHeight = 24;
function makeLongList(box, lineAt) {
const space = make('div', { class: 'space' });
const shown = make('div', { class: 'shown' });
space.append(shown);
box.append(space);
const it = { length: 0, most: 250000, box };
const heightOf = () => Math.min(it.length * lineHeight, 8000000);
const scaleOf = () => it.length * lineHeight > 8000000
? (it.length * lineHeight - box.clientHeight) / (8000000 - box.clientHeight) : 1;
it.draw = () => {
const top = box.scrollTop * scaleOf();
const first = Math.max(0, Math.floor(top / lineHeight) - 4);
const last = Math.min(it.length, first + Math.ceil((box.clientHeight || 400) / lineHeight) + 9);
space.style.height = heightOf() + 'px';
shown.style.transform = `translateY(${first * lineHeight - top + box.scrollTop}px)`;
shown.replaceChildren();
for (let i = first; i < last; i++) shown.append(lineAt(i));
};
it.showLine = (i) => {
space.style.height = heightOf() + 'px';
const at = i * lineHeight / scaleOf();
if (at < box.scrollTop || at > box.scrollTop
+ box.clientHeight - 2 * lineHeight) box.scrollTop = at - box.clientHeight * 0.6;
it.draw();
};
box.addEventListener('scroll', it.draw);
return it;
}
function setUpOrder(run, go, choose) {
const facts = run.facts;
const list = makeLongList(byId('order-list'), (i) => {
const it = orderedBy(run.data.order(i));
const line = make('button', { class: 'order-line', type: 'button', 'data-order': i,
title: orderText(run.data.order(i)) + ', in step ' + (run.data.first + facts.orderStep[i]) });
if (i >= order.now) line.classList.add('later');
if (facts.orderStep[i] === order.step - 1) line.classList.add('new');
if (it.p >= 0) line.style.setProperty('--own', colourOf(it.p));
line.setAttribute('data-text', run.data.order(i));
line.append(make('span', { class: 'own', 'data-processor': it.p }, it.p < 0 ? '-' : String(it.p)),
make('span', { class: 'faint' }, String(it.number)));
const more = (it.result ? ' = ' + withValues(it.result) : '') + (it.console ? ' prints ' + it.console : '');
line.append(make('span', { class: 'text' }, it.instruction + more));
if (it.word >= 0) line.append(make('span', { class: 'refers' }, shortWord(it.word) + ': ' + shortValue(it.before)
+ (it.before === it.after ? '' : ' \u2192 ' + shortValue(it.after))));
return line;
});
const order = { now: 0, step: 0, list };
byId('order-list').addEventListener('click', (event) => {
const line = event.target.closest('[data-order]');
const own = event.target.closest('[data-processor]');
if (own && own.getAttribute('data-processor') !== '-1') choose(Number(own.getAttribute('data-processor')));
if (line) go(facts.orderStep[Number(line.getAttribute('data-order'))] + 1);
});
order.show = (step) => {
order.step = step;
order.now = facts.afterStep[step];
list.length = order.now;
if (byId('order-list').clientHeight) list.showLine(Math.max(0, order.now - 1));
byId('order-count').textContent = count(order.now, 'line') + ' of ' + run.data.orders;
};
return order;
}
function setUpProgram(run, choose) {
const list = byId('program-list');
const it = { drawn: '' };
it.show = (view, step) => {
const now = run.facts.afterStep[step];
const at = new Map();
for (let p = 0; p < view.n; p++) {
if (!at.has(view.pc[p])) at.set(view.pc[p], []);
at.get(view.pc[p]).push(p);
}
const lines = [...run.facts.listing].filter(([pc, line]) => line.from < now || at.has(pc)).map(([pc]) => pc);
for (const pc of at.keys()) if (!run.facts.listing.has(pc)) lines.push(pc);
lines.sort();
list.replaceChildren();
let last = -1;
for (const pc of lines) {
const value = parseInt(pc, 16), known = run.facts.listing.get(pc);
if (last >= 0 && value !== last + 4) list.append(make('div', { class: 'gap' }, '..'));
last = value;
const place = placeOfAddress(value);
if (place && place.offset === 0) list.append(make('div', { class: 'program-label' }, place.name + ':'));
const line = make('div', { class: 'program-line' + (at.has(pc) ? ' here' : '') });
const marks = make('span', { class: 'marks' });
for (const p of (at.get(pc) || []).slice(0, 8)) {
const mark = make('button', { type: 'button', class: 'mark', 'data-processor': p, 'aria-label': 'processor '
+ p + ' is here' }, String(p));
mark.style.background = colourOf(p);
marks.append(mark);
}
if ((at.get(pc) || []).length > 8) marks.append(make('span', {}, '+' + (at.get(pc).length - 8)));
const seen = known && (known.from < now || run.data.first > 0);
const text = seen ? known.text : run.data.first > 0 ? 'not executed here' : 'not yet executed';
line.append(marks, make('code', { class: 'address' }, pc), make('code', { class: seen ? '' : 'faint' },
text));
list.append(line);
}
};
list.addEventListener('click', (event) => {
const mark = event.target.closest('[data-processor]');
if (mark) choose(Number(mark.getAttribute('data-processor')));
});
return it;
}
const registerNames = ('zero ra sp gp tp t0 t1 t2 s0 s1 a0 a1 a2 a3 a4 a5 a6 a7 '
+ 's2 s3 s4 s5 s6 s7 s8 s9 s10 s11 t3 t4 t5 t6').split(' ');
function setUpRegisters(run) {
const select = byId('register-processor');
for (let p = 0; p < run.data.n; p++) select.append(make('option', { value: p }, 'processor ' + p));
const table = byId('register-table');
const cells = [];
for (let r = 1; r < 32; r++) {
const cell = make('div', { class: 'register' });
const value = make('code', { 'data-register': r });
cell.append(make('span', { class: 'register-name' }, 'x' + r + ' ' + registerNames[r]), value);
table.append(cell);
cells[r] = { cell, value, last: '' };
}
const it = { processor: 0 };
it.show = (view) => {
const p = it.processor;
select.value = String(p);
byId('register-heading').textContent = processorText(view, p);
for (let r = 1; r < 32; r++) {
const value = view.registers[32 * p + r], text = valueText(value);
cells[r].cell.classList.toggle('changed', cells[r].p === p && cells[r].number !== value);
cells[r].cell.classList.toggle('zero', value === 0);
cells[r].value.textContent = text;
cells[r].p = p;
cells[r].number = value;
}
};
return it;
}
const chartWidth = 400, chartHeight = 62;
function partsOf(numberAt, from, to, parts) {
const values = [];
for (let i = 0; i < parts; i++) {
const first = from + Math.floor((to - from) * i / parts), end = Math.max(first + 1, from
+ Math.floor((to - from) * (i + 1) / parts));
let most = 0;
for (let it = first; it < Math.min(end, to); it++) most = Math.max(most, numberAt(it));
values.push(most);
}
return values;
}
function countsOf(isAt, to, parts) {
const values = new Array(parts).fill(0);
for (let it = 0; it < to; it++) if (isAt(it)) values[Math.min(parts - 1, Math.floor(it * parts / to))]++;
return values;
}
function areaPath(values, width, height, most) {
const dx = width / values.length;
let path = `M0 ${height}`;
values.forEach((value, i) => {
const y = (height - value * (height - 4) / most).toFixed(1);
path += `L${(i * dx).toFixed(1)} ${y}L${((i + 1) * dx).toFixed(1)} ${y}`;
});
return path + `L${width} ${height}Z`;
}
function makeChart(name, unit, values, kind, run, go, numberAt) {
const most = Math.max(1, ...values);
const figure = make('figure', { class: 'chart ' + kind });
const caption = make('figcaption');
const now = make('strong', {}, '');
caption.append(make('span', {}, name), make('span', { class: 'faint' }, 'most ' + most + (unit ? ' ' + unit : '')),
now);
const svg = draw('svg', { viewBox: `0 0 ${chartWidth} ${chartHeight}`, preserveAspectRatio: 'none', role: 'img',
'aria-label': name + ' over the run, at most ' + most });
svg.append(draw('path', { d: areaPath(values, chartWidth, chartHeight, most), class: 'area' }));
const cursor = draw('line', { y1: 0, y2: chartHeight, class: 'cursor' });
svg.append(cursor);
svg.addEventListener('click', (event) => {
const box = svg.getBoundingClientRect();
go(Math.round((event.clientX - box.left) / box.width * run.data.steps));
});
figure.append(caption, svg);
return { figure, show: (step) => {
const x = run.data.steps ? step / run.data.steps * chartWidth : 0;
cursor.setAttribute('x1', x);
cursor.setAttribute('x2', x);
now.textContent = numberAt ? 'now ' + numberAt(step) : '';
} };
}
function setUpCharts(run, go) {
const { facts, data } = run;
const it = { charts: [], strip: null };
it.build = () => {
const parts = Math.max(1, Math.min(200, data.steps)), end = data.steps + 1;
const rises = (kinds) => countsOf((i) => kinds.includes(facts.kind[i]), data.steps, parts);
const perPart = data.steps > parts ? 'in ' + Math.ceil(data.steps / parts) + ' steps' : '';
const upTo = (kind) => {
let known = 0, at = 0;
return (step) => {
if (step < at) at = known = 0;
while (at < step) if (facts.kind[at++] === kind) known++;
return known;
};
};
const moving = partsOf((i) => facts.moving[i], 0, end, parts);
const charts = [
makeChart('messages on their way', '', moving, 'moving', run, go, (step) => facts.moving[step]),
makeChart('combinations', perPart, rises([JOIN]), 'joins', run, go, upTo(JOIN)),
makeChart('services', perPart, rises([SERVE]), 'serves', run, go, upTo(SERVE)),
];
facts.queues.forEach((queue, it) => {
const most = partsOf((i) => queue[i], 0, end, parts);
charts.push(makeChart('longest queue of stage ' + it, '', most, 'queue', run, go, (step) => queue[step]));
});
it.charts = charts;
byId('charts').replaceChildren(...it.charts.map((chart) => chart.figure));
buildStrip();
};
function buildStrip() {
const parts = Math.max(1, Math.min(400, data.steps));
const values = partsOf((i) => facts.moving[i], 1, data.steps + 1, parts), most = Math.max(1, ...values);
const svg = byId('strip');
svg.setAttribute('viewBox', `0 0 ${parts} 30`);
svg.replaceChildren(draw('path', { d: areaPath(values, parts, 30, most), class: 'area' }));
const joins = countsOf((i) => facts.kind[i] === JOIN, data.steps, parts);
let path = '';
joins.forEach((value, i) => { if (value) path += `M${i} 0h1v5h-1z`; });
svg.append(draw('path', { d: path || 'M0 0', class: 'ticks' }));
}
it.show = (step) => { for (const chart of it.charts) chart.show(step); };
return it;
}
const timeRow = 30;
function setUpTimeline(run, go) {
const { facts, data } = run;
const box = byId('timeline');
const svg = draw('svg', { class: 'times', role: 'group', 'aria-label': 'references by processor, time downwards' });
const space = make('div', { class: 'space' });
space.append(svg);
box.append(space);
const it = { step: 0, word: -1, rows: [] };
const columnWidth = () => Math.min(64, Math.max(data.n > 16 ? 4 : 20, (box.clientWidth - 70) / data.n));
const everyHead = Math.max(1, data.n / 8);
const xOf = (p) => 52 + (p + 0.5) * columnWidth();
function chosenRows() {
const so = facts.refersAt[it.step];
if (it.word < 0) return { length: so, at: (i) => i };
if (it.cachedWord !== it.word || it.cachedFor > so) { it.cached = []; it.cachedFor = 0; it.cachedWord = it.word; }
for (; it.cachedFor < so;
it.cachedFor++) if (facts.references[it.cachedFor].word === it.word) it.cached.push(it.cachedFor);
return { length: it.cached.length, at: (i) => it.cached[i] };
}
it.draw = () => {
if (!box.clientHeight) return;
const rows = chosenRows();
const height = Math.min(rows.length * timeRow + 40, 8000000);
space.style.height = height + 'px';
const most = Math.ceil(box.clientHeight / timeRow) + 2;
const share = height > box.clientHeight ? box.scrollTop / (height - box.clientHeight) : 0;
const first = rows.length * timeRow + 40 > 8000000 ? Math.floor(share * Math.max(0, rows.length - most + 2))
: Math.max(0, Math.floor(box.scrollTop / timeRow) - 1);
const last = Math.min(rows.length, first + most);
const width = xOf(data.n) + 8;
const rowOf = new Map();
for (let i = first; i < last; i++) rowOf.set(rows.at(i), i);
const top = rows.length * timeRow + 40 > 8000000 ? box.scrollTop - first * timeRow : 0;
svg.replaceChildren();
svg.setAttribute('width', width);
svg.setAttribute('height', most * timeRow + 40);
const from = first * timeRow + top;
svg.style.transform = `translateY(${from}px)`;
const yOf = (i) => 34 + (i - first + 0.5) * timeRow;
for (let p = 0; p < data.n; p++) {
svg.append(draw('line', { x1: xOf(p), x2: xOf(p), y1: 26, y2: most * timeRow + 40, class: 'column' }));
}
const marks = draw('g', {});
for (let i = first; i < last; i++) drawReference(marks, rows.at(i), yOf(i), rowOf, yOf);
svg.append(marks);
const head = draw('g', { transform: `translate(0 ${box.scrollTop - from})` });
head.append(draw('rect', { x: 0, y: 0, width, height: 26, class: 'cover' }),
draw('text', { x: 4, y: 18, class: 'small faint' }, 'step'));
for (let p = 0; p < data.n; p++) {
if (p % everyHead === 0 || data.n <= 16 && columnWidth() > 21) head.append(disc(p, xOf(p), 13, 10, true));
}
svg.append(head);
};
function drawReference(marks, index, y, rowOf, yOf) {
const reference = facts.references[index];
const x = reference.p < 0 ? 44 : xOf(reference.p);
const step = facts.orderStep[reference.order];
const line = orderedBy(data.order(reference.order));
if (reference.saw >= 0) {
const writer = facts.references[reference.saw], inside = rowOf.has(reference.saw);
const wx = writer.p < 0 ? 44 : xOf(writer.p), wy = inside ? yOf(rowOf.get(reference.saw)) : 26;
const bend = wx === x ? 22 : 0;
const path = `M${wx} ${wy}C${wx + bend} ${(wy + y) / 2} ${x + bend} ${(wy + y) / 2} ${x} ${y - 8}`;
marks.prepend(draw('path', { d: path, class: 'saw' + (inside ? '' : ' before'), stroke: writer.p < 0 ? '#777'
: colourOf(writer.p) }));
marks.append(draw('path', { d: `M${x - 4} ${y - 14}L${x} ${y - 7}L${x + 4} ${y - 14}Z`, fill: writer.p < 0
? '#777' : colourOf(writer.p) }));
}
const text = 'step ' + (data.first + step) + ': processor ' + reference.p + ', ' + line.instruction + ', '
+ wordTitle(reference.word) + ' ' + valueText(line.before) + (reference.writes ? ' to ' + valueText(line.after) : '');
const g = draw('g', { class: 'reference', role: 'button', tabindex: '0', 'aria-label': text, 'data-go': step + 1 });
g.append(draw('title', {}, text), draw('text', { x: 4, y: y + 4, class: 'small faint' }, String(data.first + step)));
if (reference.writes) g.append(draw('circle', { cx: x, cy: y, r: 7, fill: reference.p < 0 ? '#777'
: colourOf(reference.p) }));
else g.append(draw('circle', { cx: x, cy: y, r: 6, class: 'load', stroke: colourOf(reference.p) }));
if (data.n <= 8) {
g.append(draw('text', { x: x + 11, y: y + 4, class: 'time-value' }, (reference.writes ? '\u2192' : '')
+ shortValue(reference.writes ? line.after : line.before)));
}
marks.append(g);
}
it.show = (step) => {
it.step = step;
if (!box.clientHeight) return;
const rows = chosenRows();
space.style.height = Math.min(rows.length * timeRow + 40, 8000000) + 'px';
box.scrollTop = 1e9;
it.draw();
};
box.addEventListener('scroll', it.draw);
const goThere = (event) => {
const reference = event.target.closest('[data-go]');
if (reference && (event.type === 'click' || event.key === 'Enter')) go(Number(reference.getAttribute('data-go')));
};
box.addEventListener('click', goThere);
box.addEventListener('keydown', goThere);
const select = byId('timeline-word');
it.words = () => {
const known = new Set(facts.references.map((reference) => reference.word));
for (const word of [...known].sort((a, b) => a - b).slice(0, 500)) select.append(make('option', { value: word },
wordTitle(word)));
};
select.addEventListener('change', () => { it.word = Number(select.value); it.show(it.step); });
return it;
}
function standingLines(view, items) {
const lines = [];
const add = (place, it) => lines.push({ text: place + it.text, key: it.key, kind: it.kind, leader: it.leader });
const at = (kind, depth, wire) => items.filter((it) => it.kind === kind && it.depth === depth && it.wire === wire);
for (let p = 0; p < view.n; p++) at('request', 0, p).forEach((it) => add('processor ' + p + ': ', it));
for (let stageNumber = 0; stageNumber < view.k; stageNumber++) {
for (let wire = 0; wire < view.n; wire++) {
const place = 'stage ' + stageNumber + ' wire ' + wire + ': ';
at('reply', stageNumber, rotatedRight(view.k, wire)).forEach((it) => add(place, it));
at('record', stageNumber + 1, wire).forEach((it) => add(place, it));
at('request', stageNumber + 1, wire).forEach((it) => add(place, it));
}
}
for (let module = 0; module < view.n; module++) {
const place = 'module ' + module + ': ';
for (const word of openWordsOf(view, module)) lines.push({ text: place + wordText(word, view.words.get(word)
|| 0), key: 'w' + word, kind: 'word', leader: -1 });
at('reply', view.k, module).forEach((it) => add(place, it));
}
return lines;
}
function setUpStanding(point) {
const box = byId('standing');
box.addEventListener('click', (event) => {
const line = event.target.closest('[data-points]');
if (line) point(line.getAttribute('data-points'));
});
return { show: (view, items) => {
const lines = standingLines(view, items);
box.replaceChildren();
for (const it of lines) {
const line = make('button', { type: 'button', class: 'standing-line ' + it.kind, 'data-points': it.key },
it.text);
if (it.leader >= 0) line.style.setProperty('--own', colourOf(it.leader));
box.append(line);
}
if (!lines.length) box.append(make('p', { class: 'faint' }, 'Nothing is in the network.'));
} };
}
const speeds = [0.5, 1, 2, 4, 8, 16, 60, 250, 1000];
function speedText(speed) {
return speed < 1 ? '1 step in 2 s' : count(speed, 'step') + ' a second';
}
function setUpControls(player, actions) {
const slider = byId('slider');
slider.max = String(player.steps);
slider.addEventListener('input', () => { player.pause(); player.go(Number(slider.value)); });
const speed = byId('speed');
speed.max = String(speeds.length - 1);
const setSpeed = (i) => {
const index = Math.min(speeds.length - 1, Math.max(0, i));
player.speed = speeds[index];
speed.value = String(index);
speed.setAttribute('aria-valuetext', speedText(player.speed));
byId('speed-text').textContent = speedText(player.speed);
};
speed.addEventListener('input', () => setSpeed(Number(speed.value)));
setSpeed(1);
const number = byId('step-number');
number.min = String(player.first);
number.max = String(player.first + player.steps);
number.addEventListener('change', () => { player.pause(); player.go(Math.max(0, Math.min(player.steps,
Math.round(Number(number.value) || 0) - player.first))); });
const jump = (kind, forwards) => {
player.pause();
const p = Number(byId('event-processor').value), w = byId('event-word').value;
const found = player.find(forwards, kindNames[kind], p, w === '' ? -1 : Number(w));
byId('event-none').textContent = found < 0 ? 'none ' + (forwards ? 'later' : 'earlier') : '';
if (found >= 0) player.go(found + 1);
};
const chosenJump = (forwards) => jump(byId('event-kind').value, forwards);
const kind = (name) => (event) => { byId('event-kind').value = name; jump(name, !event.shiftKey); };
const all = {
play: () => (player.playing() ? player.pause() : player.play()),
forth: () => { player.pause(); player.go(player.step() + 1, true); },
back: () => { player.pause(); player.go(player.step() - 1); },
first: () => { player.pause(); player.go(0); },
last: () => { player.pause(); player.go(player.steps); },
'next-event': () => chosenJump(true),
'last-event': () => chosenJump(false),
help: () => { byId('help').open ? byId('help').close() : byId('help').showModal(); },
};
Object.assign(all, actions);
for (const button of document.querySelectorAll('[data-does]')) {
button.addEventListener('click', (event) => { all[button.getAttribute('data-does')](); letGo(event); });
}
const keys = {
' ': all.play, ArrowRight: all.forth, ArrowLeft: all.back, Home: all.first, End: all.last,
PageDown: () => { player.pause(); player.go(player.step() + 10); }, PageUp: () => { player.pause();
player.go(player.step() - 10); },
ArrowUp: () => setSpeed(Number(speed.value) + 1), ArrowDown: () => setSpeed(Number(speed.value) - 1),
n: all['next-event'], b: all['last-event'], c: kind('join'), s: kind('serve'), r: kind('retire'), h: kind('stop'),
d: all.base, l: all.theme, p: all.panels, m: all.map, k: all.compact, f: all.fit, '0': all.fit, '+': all.closer,
'=': all.closer, '-': all.farther,
g: () => { number.focus(); number.select(); }, '?': all.help, Escape: all.unpin,
};
document.addEventListener('keydown', (event) => {
if (event.ctrlKey || event.metaKey || event.altKey || byId('help').open && event.key !== '?') return;
const name = event.target.nodeName;
const type = event.target.type;
if (name === 'INPUT' && type !== 'range' || name === 'SELECT' && event.key !== 'Escape') return;
if (name === 'INPUT' && event.target.id === 'speed' && /^Arrow|^Home|^End|^Page/.test(event.key)) return;
if (event.key === ' ' && (name === 'BUTTON' || event.target.getAttribute('role') === 'button')) return;
if (event.target.getAttribute && event.target.getAttribute('role') === 'tab'
&& /^Arrow|^Home|^End/.test(event.key)) return;
const does = keys[event.key.length === 1 ? event.key.toLowerCase() : event.key];
if (!does) return;
event.preventDefault();
does(event);
});
return { show: (step) => {
slider.value = String(step);
slider.setAttribute('aria-valuetext', 'after ' + (player.first + step) + ' of ' + count(player.all, 'step'));
if (document.activeElement !== number) number.value = String(player.first + step);
byId('button-back').disabled = byId('button-first').disabled = step === 0;
byId('button-forth').disabled = byId('button-last').disabled = step === player.steps;
}, playing: (on) => {
byId('button-play').setAttribute('aria-pressed', String(on));
byId('button-play').classList.toggle('on', on);
byId('button-play').setAttribute('aria-label', on ? 'pause' : 'play');
} };
}
function letGo(event) {
if (event.detail > 0) event.currentTarget.blur();
}
function stepInAddress(address, data) {
const found = /#step=(\d+)$/.exec(address);
return found ? Math.max(0, Math.min(data.steps, Number(found[1]) - data.first)) : -1;
}
function makeAddressWriter() {
let wanted = -1, timer = 0;
return (step) => {
wanted = step;
if (timer) return;
timer = setTimeout(() => {
timer = 0;
history.replaceState(null, '', '#step=' + wanted);
}, 150);
};
}
function setUpTabs(shown) {
const tabs = [...document.querySelectorAll('[role=tab]')];
const choose = (tab, focus) => {
for (const it of tabs) {
const on = it === tab;
it.setAttribute('aria-selected', String(on));
it.tabIndex = on ? 0 : -1;
byId(it.getAttribute('aria-controls')).hidden = !on;
}
if (focus) tab.focus();
shown();
};
tabs.forEach((tab, i) => {
tab.addEventListener('click', (event) => { choose(tab); letGo(event); });
tab.addEventListener('keydown', (event) => {
const to = { ArrowRight: i + 1, ArrowLeft: i - 1 + tabs.length, Home: 0, End: tabs.length - 1 }[event.key];
if (to === undefined) return;
event.preventDefault();
choose(tabs[to % tabs.length], true);
});
});
return (name) => choose(byId('tab-' + name));
}
function start() {
const data = readData(byId('data'));
names.symbols = data.symbols;
const run = makeHistory(data);
const still = matchMedia('(prefers-reduced-motion: reduce)');
let step = 0, view = run.seek(0), items = [], playing = 0, playedAt = 0;
const writeAddress = makeAddressWriter();
const isPart = data.steps < data.all;
byId('machine').textContent = data.machine + ', ' + count(data.n, 'processor') + ', ' + (isPart
? count(data.steps, 'step') + ' from ' + data.first + ' on of ' + data.all : count(data.steps, 'step'));
document.title = 'Ultracomputer: ' + data.machine;
for (let p = 0; p < data.n; p++) byId('event-processor').append(make('option', { value: p }, 'processor ' + p));
setUpStage(byId('drawing'));
if (data.k >= 4) setUpMap(data.k);
document.body.classList.toggle('large', data.k >= 4);
const instructionAt = (pc) => { const it = run.facts.listing.get(pc); return it ? it.text : ''; };
const player = {
steps: data.steps, first: data.first, all: data.all, speed: 1, step: () => step, playing: () => playing !== 0,
go: (to, moved) => show(Math.max(0, Math.min(data.steps, to)), moved),
find: (forwards, kinds, p, w) => run.find(step, forwards, kinds, p, w),
pause: () => {
if (!playing) return;
cancelAnimationFrame(playing);
stopped();
},
play: () => {
if (step === data.steps) show(0);
playedAt = performance.now() - 1e6;
playing = requestAnimationFrame(tick);
controls.playing(true);
},
};
function stopped() {
playing = 0;
controls.playing(false);
sayCaption();
}
function tick(now) {
const due = 1000 / player.speed;
if (now - playedAt >= due) {
const many = playedAt < now - 5e5 ? 1 : Math.max(1, Math.min(500, Math.floor((now - playedAt) / due)));
playedAt = many > 1 || now - playedAt > 2 * due ? now : playedAt + due;
show(Math.min(data.steps, step + many), many === 1);
}
if (step === data.steps) stopped(); else playing = requestAnimationFrame(tick);
}
const choose = (p) => {
registers.processor = p;
detail.pinned = 'p' + p;
registers.show(view);
tabs('program');
point();
};
const goThere = (to) => { player.pause(); player.go(to); };
const order = setUpOrder(run, goThere, choose);
const program = setUpProgram(run, choose);
const registers = setUpRegisters(run);
const charts = setUpCharts(run, goThere);
const timeline = setUpTimeline(run, goThere);
const standing = setUpStanding((key) => { detail.pinned = key; point(); lookAtKey(key); });
const tabs = setUpTabs(() => showPanels());
byId('register-processor').addEventListener('change', (event) => choose(Number(event.target.value)));
const visible = (id) => !byId(id).hidden && byId('side').offsetParent !== null;
function showPanels() {
order.show(step);
if (visible('panel-program')) { program.show(view, step); registers.show(view); }
if (visible('panel-standing')) standing.show(view, items);
if (visible('panel-charts')) charts.show(step);
if (visible('panel-timeline')) timeline.show(step);
}
function sayCaption() {
const last = step > 0 ? storyText(data.story(step - 1)) : data.first === 0 ? 'Nothing has happened yet.'
: 'The page begins after ' + count(data.first, 'step') + '.';
const next = step < data.steps ? storyText(data.story(step)) : data.first + step === data.all ? 'The run is over.'
: 'The page ends here.';
byId('caption').textContent = last;
byId('caption').classList.toggle('long', last.length > 76);
byId('next-line').textContent = next;
if (!playing || player.speed <= 1) byId('said').textContent = 'After ' + (data.first + step) + ': ' + last;
}
function show(to, moved) {
const outcome = to > 0 ? outcomeOf(data.story(to - 1)) : null;
const time = Math.min(1100, 900 / player.speed);
const moving = moved && to === step + 1 && !still.matches && !document.hidden && time > 40 && !map.on;
step = to;
view = run.seek(to);
stopMotion();
drawAll(outcome, moving, playing ? time : Math.min(time, 800));
showPanels();
controls.show(step);
sayCaption();
byId('drawing').setAttribute('aria-label', 'the machine after ' + count(data.first + step, 'step'));
writeAddress(data.first + step);
}
function drawAll(outcome, moving, time) {
if (map.on) {
items = itemsOf(view, null);
drawMap(view, outcome);
} else {
const before = drawView(view, instructionAt);
items = [...stage.items.values()];
for (const it of document.querySelectorAll('.scene .last')) it.classList.remove('last');
markLast(outcome);
if (moving) showMotion(outcome, before, time);
follow(outcome);
}
if (camera.fitted) fitCamera();
point();
}
function keyOfStep(outcome) {
if (outcome.p !== undefined) return 'p' + outcome.p;
return outcome.kind === SERVE ? 'd' + outcome.module : 's' + outcome.stage + '.' + switchOfMove(data.k, outcome);
}
function markLast(outcome) {
if (!outcome) return;
const element = stage.keyed.get(keyOfStep(outcome));
if (element) element.classList.add('last');
}
const facts = { instructionAt, consoleNow: (p) => run.consoleOf(p, step) };
const point = (key) => showDetail(key || detail.pinned || null, view, items, facts);
function lookAtLast() {
if (data.k < 4) { fitCamera(); return; }
const at = placeOfKey(step > 0 ? keyOfStep(outcomeOf(data.story(step - 1))) : 'p0');
lookAt(at.x, at.y, 0.8);
}
function follow(outcome) {
if (!outcome || camera.fitted || data.k < 4 || map.on || outcome.p === -1) return;
const at = placeOfKey(keyOfStep(outcome)), scene = sceneSize();
const x = at.x * camera.scale + camera.x, y = at.y * camera.scale + camera.y;
if (x < 60 || y < 40 || x > scene.width - 60 || y > scene.height - 40) lookAt(at.x, at.y, camera.scale);
}
function lookAtKey(key) {
const it = stage.items.get(key);
if (!it || map.on || camera.fitted) return;
lookAt(it.spot.x, it.spot.y, camera.scale);
}
function redraw() {
stopMotion();
stage.items.forEach((it) => it.element.remove());
stage.items = new Map();
drawAll(step > 0 ? outcomeOf(data.story(step - 1)) : null);
showPanels();
sayCaption();
}
const pressed = (id, on) => byId(id).setAttribute('aria-pressed', String(on));
const actions = {
base: () => { decimal = !decimal; byId('button-base').textContent = decimal ? 'decimal' : 'hex'; redraw(); },
theme: () => {
const dark = document.documentElement.dataset.theme ? document.documentElement.dataset.theme === 'dark'
: matchMedia('(prefers-color-scheme: dark)').matches;
document.documentElement.dataset.theme = dark ? 'light' : 'dark';
},
panels: () => { pressed('button-panels', !document.body.classList.toggle('alone')); showPanels(); },
map: () => {
showMap(!map.on);
pressed('button-map', map.on);
redraw();
if (map.on) fitCamera(); else lookAtLast();
},
compact: () => {
stage.compact = !stage.compact;
pressed('button-compact', stage.compact);
if (map.on) actions.map();
redraw();
fitCamera();
if (camera.scale < 0.4) lookAtLast();
},
fit: fitCamera,
closer: () => zoomCamera(1.25),
farther: () => zoomCamera(0.8),
unpin: () => { detail.pinned = null; point(); },
print: () => window.print(),
};
const controls = setUpControls(player, actions);
byId('button-map').hidden = data.k < 4;
const svg = stage.svg;
const keyOf = (event) => { const it = event.target.closest('[data-key]'); return it && it.getAttribute('data-key'); };
svg.addEventListener('pointerover', (event) => { if (!detail.pinned) point(keyOf(event)); });
svg.addEventListener('pointerleave', () => point());
svg.addEventListener('focusin', (event) => point(keyOf(event)));
const open = (key) => {
if (map.on && key && /^[spd]/.test(key)) {
actions.map();
const at = placeOfKey(key);
lookAt(at.x, at.y, 0.9);
}
detail.pinned = key && detail.pinned !== key ? key : null;
if (key && key[0] === 'p') registers.processor = Number(key.slice(1));
if (visible('panel-program')) registers.show(view);
point();
};
svg.addEventListener('click', (event) => { if (!svg.dragged) open(keyOf(event)); });
svg.addEventListener('keydown', (event) => { if (event.key === 'Enter') open(keyOf(event)); });
function placeOfKey(key) {
const layout = stage.layout, [a, b] = key.slice(1).split('.').map(Number);
if (key[0] === 's') return { x: layout.x[a + 1] + layout.w[a + 1] / 2, y: layout.y[a + 1][2 * b + 1] };
const column = key[0] === 'p' ? 0 : data.k + 1;
return { x: layout.x[column] + layout.w[column] / 2, y: middleOf(layout, column, a) };
}
setUpCamera();
showMap(data.k >= 4);
pressed('button-map', map.on);
addEventListener('hashchange', (event) => {
const to = stepInAddress(event.newURL, data);
if (to >= 0 && to !== step) goThere(to);
});
addEventListener('beforeprint', () => {
const size = drawnSize();
stopMotion();
svg.setAttribute('viewBox', `0 0 ${size.width} ${size.height}`);
stage.camera.removeAttribute('transform');
});
addEventListener('afterprint', () => {
svg.removeAttribute('viewBox');
placeCamera();
});
show(Math.max(0, stepInAddress(location.href, data)));
fitCamera();
run.learnAll((done) => {
if (!done) return;
charts.build();
timeline.words();
charts.show(step);
if (!map.on) redraw(); else showPanels();
document.body.dataset.ready = 'yes';
});
}
try {
start();
} catch (fault) {
byId('caption').textContent = 'This page cannot be shown: ' + fault.message;
throw fault;
}
})();
</script>
</body>
</html>
"##
}
