//! The page up to its data. Written by tools/page: edit page/.

/// The page up to its data.
pub const PAGE_HEAD: &str = r##"<!doctype html>
<html lang="en">
<head>
<meta charset="utf-8">
<meta name="viewport" content="width=device-width, initial-scale=1">
<meta http-equiv="Content-Security-Policy"
  content="default-src 'none'; style-src 'unsafe-inline'; script-src 'unsafe-inline'">
<title>A run of shared registers</title>
<style>
:root {
  --page: #ffffff;
  --panel: #f6f8fa;
  --ink: #1f2328;
  --soft: #57606a;
  --line: #d0d7de;
  --rail: #8c959f;
  --focus: #0969da;
  --now: #0969da;
  --point: #b3261e;
  --changed: #fff3c4;
  --changed-ink: #5c4400;
  --bad: #a40e26;
  --good: #116329;
  --p0: #0a58ca;
  --p1: #a04a00;
  --p2: #17692f;
  --p3: #7a3fc4;
  --p4: #ad1457;
  --p5: #0b6b75;
  --p6: #6a5f00;
  --p7: #4d5561;
  --mono: ui-monospace, 'SF Mono', 'Cascadia Mono', 'DejaVu Sans Mono', Menlo, Consolas, monospace;
  --text: system-ui, -apple-system, 'Segoe UI', Roboto, 'Helvetica Neue', 'Liberation Sans', Arial, sans-serif;
  color-scheme: light;
}

:root[data-theme=dark] {
  --page: #0d1117;
  --panel: #161b22;
  --ink: #f0f6fc;
  --soft: #a2abb6;
  --line: #2f3742;
  --rail: #7d8794;
  --focus: #79b8ff;
  --now: #79b8ff;
  --point: #ff8b82;
  --changed: #4a3a06;
  --changed-ink: #ffe9a6;
  --bad: #ff9a94;
  --good: #6bd482;
  --p0: #79b8ff;
  --p1: #f2a65a;
  --p2: #6bd482;
  --p3: #c8a2ff;
  --p4: #ff8fbf;
  --p5: #5fd7de;
  --p6: #d3cd5a;
  --p7: #b7c0cb;
  color-scheme: dark;
}

.c0 {
  --c: var(--p0)
}

.c1 {
  --c: var(--p1)
}

.c2 {
  --c: var(--p2)
}

.c3 {
  --c: var(--p3)
}

.c4 {
  --c: var(--p4)
}

.c5 {
  --c: var(--p5)
}

.c6 {
  --c: var(--p6)
}

.c7 {
  --c: var(--p7)
}

* {
  box-sizing: border-box
}

html {
  background: var(--page);
  color: var(--ink);
  font: 15px/1.5 var(--text);
  -webkit-text-size-adjust: 100%
}

body {
  margin: 0 auto;
  padding: 0 20px 32px;
  max-width: 1760px
}

button,
input,
select {
  font: inherit;
  color: inherit
}

:focus-visible {
  outline: 2px solid var(--focus);
  outline-offset: 2px;
  border-radius: 3px
}

h1 {
  font-size: 20px;
  line-height: 1.3;
  margin: 0;
  font-weight: 650;
  text-wrap: balance
}

h2 {
  font-size: 12px;
  letter-spacing: .06em;
  text-transform: uppercase;
  color: var(--soft);
  margin: 0 0 8px;
  font-weight: 650
}

h3 {
  font-size: 14px;
  margin: 0
}

code,
.mono {
  font-family: var(--mono);
  font-size: .88em;
  font-variant-ligatures: none
}

code,
.nowrap {
  white-space: nowrap
}

header {
  padding: 16px 0 8px
}

.facts {
  margin: 3px 0 0;
  color: var(--soft)
}

.facts b {
  color: var(--ink);
  font-weight: 600
}

/* controls */
.controls {
  position: sticky;
  top: 0;
  z-index: 5;
  background: var(--page);
  display: flex;
  flex-wrap: wrap;
  align-items: center;
  gap: 6px 10px;
  padding: 8px 0;
  border-bottom: 1px solid var(--line)
}

.controls button svg {
  display: inline-block;
  vertical-align: -2px
}

#play {
  min-width: 62px
}

.controls button,
.tools button {
  border: 1px solid var(--line);
  background: var(--panel);
  border-radius: 6px;
  height: 32px;
  min-width: 34px;
  padding: 0 9px;
  cursor: pointer
}

.controls button:hover,
.tools button:hover {
  border-color: var(--rail)
}

.controls button:disabled {
  opacity: .45;
  cursor: default
}

.controls input[type=range] {
  flex: 1 1 240px;
  min-width: 140px;
  accent-color: var(--now);
  height: 32px;
  margin: 0
}

#where {
  font-variant-numeric: tabular-nums;
  min-width: 9.5em;
  text-align: right;
  font-weight: 600
}

.tools {
  display: flex;
  flex-wrap: wrap;
  gap: 4px 14px;
  align-items: center;
  padding: 8px 0 6px;
  color: var(--soft);
  font-size: 13px
}

.tools label {
  display: inline-flex;
  align-items: center;
  gap: 5px;
  cursor: pointer;
  white-space: nowrap
}

.tools svg {
  display: block
}

.tools .sign {
  display: inline-flex;
  gap: 5px;
  align-items: center
}

.tools [hidden] {
  display: none
}

.tools input {
  margin: 0;
  accent-color: var(--now)
}

.tools button {
  height: 26px;
  font-size: 13px;
  color: var(--ink)
}

.tools .space {
  flex: 1
}

/* diagram */
.diagram {
  border: 1px solid var(--line);
  border-radius: 8px;
  overflow: auto;
  max-height: 62vh;
  position: relative;
  background: var(--page);
  overscroll-behavior-x: contain
}

.canvas {
  display: grid;
  grid-template-columns: max-content 1fr;
  width: max-content;
  min-width: 100%
}

.corner,
.gutter {
  position: sticky;
  left: 0;
  z-index: 3;
  background: var(--page);
  border-right: 1px solid var(--line)
}

.corner {
  top: 0;
  z-index: 4;
  border-bottom: 1px solid var(--line);
  font-size: 11px;
  color: var(--soft);
  padding: 5px 10px 0;
  height: 26px
}

.axis,
.inner {
  overflow: clip
}

.axis {
  contain: inline-size;
  position: sticky;
  top: 0;
  z-index: 2;
  background: var(--page);
  border-bottom: 1px solid var(--line);
  height: 26px
}

.gutter {
  min-width: 92px
}

.gutter .row {
  overflow: hidden;
  text-overflow: ellipsis;
  position: absolute;
  left: 0;
  right: 0;
  padding: 0 10px;
  line-height: 17px;
  white-space: nowrap;
  border-left: 4px solid transparent
}

.gutter .row.acting {
  border-left-color: var(--c);
  background: color-mix(in srgb, var(--c) 10%, var(--page))
}

.gutter .name {
  color: var(--c);
  font-weight: 700;
  font-family: var(--mono);
  font-size: 13px
}

.gutter .small {
  font-family: var(--mono);
  font-size: 11px;
  color: var(--soft)
}

.gutter .small b {
  color: var(--ink);
  font-weight: 600
}

.inner {
  position: relative
}

svg {
  display: block
}

svg text {
  font: 11.5px var(--mono);
  fill: var(--ink);
  font-variant-ligatures: none
}

.halo {
  paint-order: stroke;
  stroke: var(--page);
  stroke-width: 3.5px;
  stroke-linejoin: round
}

.tick {
  stroke: var(--line);
  stroke-width: 1;
  stroke-opacity: .55
}

.axis text {
  fill: var(--soft);
  font-size: 11px;
  text-anchor: middle;
  cursor: pointer
}

.axis text.at {
  fill: var(--page);
  font-weight: 700
}

.rail {
  stroke: var(--rail);
  stroke-width: 1.5
}

.bar {
  fill: color-mix(in srgb, var(--c) 26%, var(--page));
  stroke: var(--c);
  stroke-width: 1
}

.bar.turned {
  stroke: var(--bad);
  stroke-width: 2.4
}

.turned {
  display: block;
  color: var(--bad);
  font: 600 12px/1.4 var(--text)
}

.bar.open {
  stroke-dasharray: 3 3
}

.cast,
.ack,
.count {
  fill: none;
  stroke: var(--c)
}

.cast {
  stroke-width: 2
}

.ack {
  stroke-width: 1.4;
  stroke-dasharray: 7 4
}

.count {
  stroke-width: 1.5;
  stroke-dasharray: .1 4;
  stroke-linecap: round
}

.tip {
  fill: var(--c);
  stroke: var(--c);
  stroke-width: 1.3;
  stroke-linejoin: round
}

.tip.hollow {
  fill: var(--page)
}

.cross {
  stroke: var(--c);
  stroke-width: 1.8;
  stroke-linecap: round
}

.hit {
  stroke: transparent;
  stroke-width: 9;
  fill: none
}

.again {
  fill: var(--page);
  stroke: var(--c)
}

.veil {
  fill: var(--page);
  fill-opacity: .74;
  pointer-events: none
}

.band {
  fill: var(--now);
  fill-opacity: .1
}

.nowline {
  stroke: var(--now);
  stroke-width: 1.5;
  stroke-dasharray: 2 3;
  pointer-events: none
}

.flying {
  fill: var(--c);
  stroke: var(--page);
  stroke-width: 1.5;
  pointer-events: none
}

.ev {
  cursor: pointer
}

.ev .node {
  fill: var(--page);
  stroke: var(--c);
  stroke-width: 1.6
}

.ev .node.none {
  stroke-dasharray: 2.5 2.5
}

.ev .time {
  fill: var(--c);
  font-size: 11px;
  font-weight: 600;
  text-anchor: middle;
  pointer-events: none
}

.ev.future {
  opacity: .3
}

.ev.current .node {
  fill: var(--c);
  stroke-width: 2.4;
  stroke-dasharray: none
}

.ev.current .time {
  fill: var(--page)
}

.pill {
  fill: color-mix(in srgb, var(--c) 14%, var(--page));
  stroke: var(--c);
  stroke-width: 1
}

.pilltext {
  text-anchor: middle;
  font-size: 11px
}

.done {
  fill: var(--soft)
}

.diamond {
  fill: var(--point);
  stroke: var(--page);
  stroke-width: 1.2
}

.rank {
  fill: var(--page);
  font-size: 10px;
  font-weight: 700;
  text-anchor: middle;
  pointer-events: none
}

.lane {
  font-size: 11px
}

.plumb {
  stroke: var(--point);
  stroke-width: 1;
  stroke-dasharray: 1.5 3;
  stroke-opacity: .8
}

.source {
  fill: none;
  stroke: var(--ink);
  stroke-width: 1.6;
  stroke-dasharray: 4 3;
  pointer-events: none
}

.dim [data-op]:not(.lit):not(.ev),
.dim .arrow:not(.lit),
.dim .stub:not(.lit) {
  opacity: .25
}

.lit .cast,
.lit.cast {
  stroke-width: 3.2
}

.lit .ack {
  stroke-width: 2.4
}

.bar.lit {
  stroke-width: 2.2
}

.pill.lit {
  stroke-width: 2.2
}

.hide-cast .f-cast,
.hide-ack .f-ack,
.hide-count .f-count,
.hide-lost .stub {
  display: none
}

.hide-point .plumb {
  display: none
}

/* panels */
.panels {
  display: grid;
  grid-template-columns: minmax(300px, 4fr) minmax(330px, 5fr) minmax(270px, 3.4fr);
  gap: 18px 26px;
  margin-top: 16px;
  align-items: start
}

.panels>* {
  min-width: 0
}

.story h2 {
  margin-bottom: 4px
}

.story h2 .words {
  text-transform: none;
  letter-spacing: 0;
  margin-left: 10px;
  font-size: 13px
}

.lead {
  font-size: 17.5px;
  line-height: 1.42;
  margin: 0 0 8px;
  font-weight: 550;
  text-wrap: pretty
}

.note {
  margin: 0 0 10px;
  padding: 7px 11px;
  border-left: 3px solid var(--now);
  background: var(--panel);
  border-radius: 0 6px 6px 0
}

.note::before {
  content: "Note: ";
  font-weight: 600
}

.why {
  list-style: none;
  margin: 0;
  padding: 0
}

.why li {
  display: grid;
  grid-template-columns: 72px 1fr;
  gap: 10px;
  padding: 5px 0;
  border-top: 1px solid var(--line)
}

.why li>div {
  min-width: 0;
  overflow-wrap: anywhere
}

.why li>:first-child {
  color: var(--soft);
  font-size: 12.5px;
  padding-top: 1px
}

.why .block>:first-child {
  color: var(--bad);
  font-weight: 600
}

.why .deliver>:first-child,
.why .answer>:first-child {
  color: var(--good);
  font-weight: 600
}

.chip {
  display: inline-block;
  border: 1px solid var(--c);
  background: color-mix(in srgb, var(--c) 12%, var(--page));
  color: var(--ink);
  border-radius: 5px;
  padding: 0 5px;
  font: 12.5px/18px var(--mono);
  white-space: nowrap;
  cursor: pointer;
  font-variant-ligatures: none;
  max-width: 100%;
  overflow: hidden;
  text-overflow: ellipsis;
  vertical-align: bottom
}

.chip.lit,
.line.lit {
  box-shadow: 0 0 0 2px var(--c)
}

.who {
  color: var(--c);
  font-weight: 700;
  font-family: var(--mono);
  font-size: .92em
}

.cards {
  display: grid;
  grid-template-columns: repeat(auto-fill, minmax(222px, 1fr));
  gap: 10px
}

.card {
  border: 1px solid var(--line);
  border-left: 4px solid var(--c);
  border-radius: 6px;
  padding: 8px 11px 9px;
  background: var(--page)
}

.card.acting {
  background: color-mix(in srgb, var(--c) 6%, var(--page));
  border-color: var(--c)
}

.card h3 {
  display: flex;
  align-items: baseline;
  gap: 9px
}

.card h3 .who {
  font-size: 15px
}

.card h3 .run {
  margin-left: auto;
  font-weight: 400;
  font-size: 12.5px;
  color: var(--soft)
}

.card dl {
  display: grid;
  grid-template-columns: max-content 1fr;
  gap: 2px 10px;
  margin: 5px 0 0;
  font-size: 13.5px
}

.card dt {
  color: var(--soft);
  font-size: 12.5px;
  padding-top: 1px
}

.card dd {
  margin: 0;
  min-width: 0
}

.none {
  color: var(--soft)
}

.changed {
  background: var(--changed);
  color: var(--changed-ink);
  border-radius: 3px;
  padding: 0 3px;
  margin: 0 -3px
}

.queue {
  list-style: none;
  margin: 0;
  padding: 0
}

.queue li {
  padding: 1px 0 3px
}

.queue li+li {
  border-top: 1px dotted var(--line);
  padding-top: 3px
}

.wait {
  display: block;
  font-size: 12.5px;
  color: var(--soft)
}

.no {
  color: var(--bad);
  font-weight: 600
}

.yes {
  color: var(--good)
}

.box {
  border: 1px solid var(--line);
  border-radius: 6px;
  max-height: 290px;
  overflow: auto;
  background: var(--page)
}

.side>section+section {
  margin-top: 16px
}

table {
  border-collapse: collapse;
  width: 100%;
  font-size: 13px
}

th {
  font-weight: 600;
  color: var(--soft);
  text-align: left;
  font-size: 12px;
  position: sticky;
  top: 0;
  background: var(--panel);
  z-index: 1
}

th,
td {
  padding: 3px 8px;
  vertical-align: top
}

tbody tr+tr td {
  border-top: 1px solid var(--line)
}

td.n,
th.n {
  text-align: right;
  font-variant-numeric: tabular-nums;
  color: var(--soft)
}

tr.fresh td {
  background: color-mix(in srgb, var(--changed) 75%, transparent)
}

tr.acting td {
  background: color-mix(in srgb, var(--c) 9%, var(--page))
}

tr.pick {
  cursor: pointer
}

table.fixed {
  table-layout: fixed
}

.fixed td {
  overflow: hidden;
  text-overflow: ellipsis;
  white-space: nowrap
}

.empty {
  margin: 0;
  padding: 7px 10px;
  color: var(--soft);
  font-size: 13.5px
}

.fine {
  color: var(--soft);
  font-size: 12.5px;
  margin: 6px 0 0
}

#tip {
  position: fixed;
  z-index: 20;
  max-width: 340px;
  background: var(--ink);
  color: var(--page);
  border-radius: 7px;
  padding: 8px 11px;
  font-size: 13px;
  line-height: 1.45;
  pointer-events: none;
  box-shadow: 0 4px 18px rgb(0 0 0/.25)
}

#tip[hidden] {
  display: none
}

#tip b {
  font-weight: 650
}

#tip code {
  font-size: 12.5px
}

#tip ul {
  margin: 3px 0 0;
  padding: 0;
  list-style: none
}

kbd {
  font: 12px var(--mono);
  border: 1px solid var(--line);
  border-bottom-width: 2px;
  border-radius: 4px;
  padding: 0 5px;
  background: var(--panel)
}

footer {
  margin-top: 22px;
  color: var(--soft);
  font-size: 13px;
  border-top: 1px solid var(--line);
  padding-top: 10px
}

footer p {
  margin: 0 0 5px;
  max-width: 95ch
}

.slices {
  display: none
}

details {
  margin-top: 16px;
  font-size: 13.5px
}

summary {
  cursor: pointer;
  color: var(--soft);
  font-weight: 600
}

textarea {
  width: 100%;
  font: 12.5px/1.45 var(--mono);
  color: var(--ink);
  background: var(--panel);
  border: 1px solid var(--line);
  border-radius: 6px;
  padding: 7px 9px
}

.skip {
  position: absolute;
  left: -999px
}

.skip:focus {
  left: 8px;
  top: 8px;
  background: var(--page);
  z-index: 30;
  padding: 4px 8px
}

@media (max-width:1120px) {
  .panels {
    grid-template-columns: 1fr 1fr
  }

  .side {
    grid-column: 1/-1;
    display: grid;
    grid-template-columns: repeat(auto-fit, minmax(270px, 1fr));
    gap: 16px
  }

  .side>section+section {
    margin-top: 0
  }
}

@media (max-width:740px) {
  body {
    padding: 0 12px 24px
  }

  .panels {
    grid-template-columns: 1fr
  }

  .controls {
    position: static
  }

  #where {
    min-width: 0
  }
}

@media (prefers-reduced-motion:no-preference) {
  .diagram.smooth {
    scroll-behavior: smooth
  }

  .smooth .ev {
    transition: opacity .12s
  }
}

@media (forced-colors:active) {
  .veil {
    opacity: .6
  }

  .changed,
  tr.fresh td {
    text-decoration: underline
  }

  .lit {
    outline: 2px solid
  }
}

@media print {
  @page {
    margin: 12mm
  }

  html {
    font-size: 12px
  }

  body {
    padding: 0;
    max-width: none
  }

  .controls,
  .tools,
  .diagram,
  #text,
  #tip,
  .keys,
  .skip {
    display: none !important
  }

  .slices {
    display: block
  }

  .slices svg {
    width: 100%;
    height: auto;
    margin-bottom: 5mm;
    break-inside: avoid
  }

  .panels {
    grid-template-columns: 1fr 1fr;
    gap: 5mm 7mm
  }

  .side {
    grid-column: 1/-1;
    display: grid;
    grid-template-columns: 1fr 1fr;
    gap: 5mm
  }

  .side>section+section {
    margin-top: 0
  }

  .box {
    max-height: none;
    overflow: visible
  }

  .card,
  section {
    break-inside: avoid
  }

  * {
    print-color-adjust: exact;
    -webkit-print-color-adjust: exact
  }
}

</style>
</head>
<body>
<a class="skip" href="#story">To what happened</a>
<header>
  <h1 id="title">A run of shared registers</h1>
  <p class="facts" id="facts"></p>
</header>
<noscript><p>This page steps through a run by a script of its own, and your browser runs none. <code>awshow draw</code>
  makes a picture of the same run.</p></noscript>
<div class="controls" role="group" aria-label="Steps of the run">
  <button type="button" id="first" title="To the start (Home)" aria-label="To the start"><svg width="14" height="14"
    viewBox="0 0 14 14" aria-hidden="true"><path fill="currentColor" d="M1 1h2.4v12H1zM13 1v12L4.5 7z"/></svg></button>
  <button type="button" id="back" title="One event back (&#x2190;)" aria-label="One event back"><svg width="14"
    height="14" viewBox="0 0 14 14" aria-hidden="true"><path fill="currentColor" d="M11 1v12L2.5 7z"/></svg></button>
  <button type="button" id="play" title="Play (p)" aria-label="Play">Play</button>
  <button type="button" id="next" title="One event on (&#x2192;)" aria-label="One event on"><svg width="14" height="14"
    viewBox="0 0 14 14" aria-hidden="true"><path fill="currentColor" d="M3 1v12l8.5-6z"/></svg></button>
  <button type="button" id="last" title="To the end (End)" aria-label="To the end"><svg width="14" height="14"
    viewBox="0 0 14 14" aria-hidden="true"><path fill="currentColor"
    d="M10.600 1H13v12h-2.400zM1 1v12l8.500-6z"/></svg></button>
  <input type="range" id="slider" min="-1" step="1" aria-label="Event">
  <output id="where" for="slider"></output>
</div>
<div class="tools" role="group" aria-label="What the diagram shows">
  <label class="c0"><input type="checkbox" id="show-cast" checked><svg width="26" height="10" aria-hidden="true"><line
    class="cast" x1="0" y1="5" x2="26" y2="5"/></svg>casts</label>
  <label class="c0"><input type="checkbox" id="show-ack" checked><svg width="26" height="10" aria-hidden="true"><line
    class="ack" x1="0" y1="5" x2="26" y2="5"/></svg>acknowledgements</label>
  <label class="c0"><input type="checkbox" id="show-count" checked><svg width="26" height="10" aria-hidden="true"><line
    class="count" x1="1" y1="5" x2="26" y2="5"/></svg>counts</label>
  <label class="c0"><input type="checkbox" id="show-lost" checked><svg width="26" height="12" aria-hidden="true"><line
    class="cast" x1="0" y1="6" x2="17" y2="6"/><path class="cross" d="M16 2l8 8M24 2l-8 8"/></svg>never taken</label>
  <span class="c0 sign"><svg width="22" height="12" aria-hidden="true"><line class="cast" x1="0" y1="6" x2="13"
    y2="6"/><path class="tip hollow" d="M12 1.5L21 6L12 10.5Z"/></svg>dropped</span>
  <span id="key-point" class="sign"><svg width="14" height="14" aria-hidden="true"><path class="diamond"
    d="M7 0L14 7L7 14L0 7Z"/></svg>linearization point</span>
  <span>number in a node: the clock</span>
  <span class="space"></span>
  <label><input type="checkbox" id="roomy">texts</label>
  <button type="button" id="theme" aria-label="Change between light and dark">&#x25d0;</button>
</div>
<div class="diagram" id="diagram" tabindex="0" role="group"
  aria-label="Space-time diagram. The arrow keys step through the events.">
  <div class="canvas"><div class="corner">event</div><div class="axis" id="axis"></div><div class="gutter"
    id="gutter"></div><div class="inner" id="inner"></div></div>
</div>
<div class="slices" id="slices" aria-hidden="true"></div>
<main class="panels">
  <section class="story" id="story" tabindex="-1" aria-live="polite" aria-label="What happened"></section>
  <section aria-labelledby="h-cards"><h2 id="h-cards">Processes</h2><div id="cards"></div></section>
  <div class="side">
    <section aria-labelledby="h-order"><h2 id="h-order">Order so far</h2><div class="box" id="order" tabindex="0"
      role="region" aria-labelledby="h-order"></div><p class="fine" id="order-fine"></p></section>
    <section aria-labelledby="h-history"><h2 id="h-history">History so far</h2><div class="box" id="history"
      tabindex="0" role="region" aria-labelledby="h-history"></div></section>
    <section aria-labelledby="h-wires"><h2 id="h-wires">On the wires: what could be taken next</h2><div class="box"
      id="wires" tabindex="0" role="region" aria-labelledby="h-wires"></div></section>
    <details id="text"><summary>Schedule up to here</summary><p class="fine">For a run that goes on otherwise: add
      events from the wires, and give it to <code>awreg replay</code>.</p><textarea id="schedule" readonly rows="9"
      spellcheck="false" aria-label="Schedule up to this event"></textarea></details>
  </div>
</main>
<footer>
  <p class="keys"><kbd>&#x2190;</kbd> <kbd>&#x2192;</kbd> step &#xb7; <kbd>Shift</kbd> with them: the events of this
    process alone &#xb7; <kbd>Home</kbd> <kbd>End</kbd> &#xb7; <kbd>p</kbd> play &#xb7; hover or focus an operation, a
    cast or an arrow: the same one is marked everywhere &#xb7; <code>#event=12</code> in the address opens the page at
    event 12.</p>
  <p>A stamp <code>(time, process)</code> is that of a cast. A process delivers a held cast once no smaller one is held
    and every other process has been heard at its stamp or above. A count says how many bodies were accepted; a tick
    puts again what isn't acknowledged.</p>
</footer>
<div id="tip" role="tooltip" hidden></div>
<script type="application/json" id="data">"##;
