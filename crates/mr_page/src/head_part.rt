//! A page in front of its lines. Made by tools/page_parts of tools/page_source: change it there.

/// The text.
pub const HEAD: &str = "<!doctype html>
<html lang=\"en\">
<head>
<meta charset=\"utf-8\">
<meta name=\"viewport\" content=\"width=device-width, initial-scale=1\">
<meta http-equiv=\"Content-Security-Policy\" content=\"default-src 'none'; style-src 'unsafe-inline'; script-src 'sha256-X6rj5sNRlTsRLv5kVCxfWOL7DQnSNEpGhiWwjfsYrVA='\">
<title>A run of mrsim: which attempt counts</title>
<style>
:root {
  color-scheme: light dark;
  --bg: #fbfaf7; --card: #fff; --ink: #23262b; --soft: #646a73; --line: #e3e1da; --faint: #f2f0ea;
  --blue: #1f6fb2; --green: #1d8260; --amber: #b26b00; --red: #c2410c;
  --blue-bg: #e8f1f9; --green-bg: #e3f3ec; --amber-bg: #fcf0db; --red-bg: #fbe9e1;
  --mono: ui-monospace, \"SF Mono\", Menlo, Consolas, \"DejaVu Sans Mono\", monospace;
}
@media (prefers-color-scheme: dark) {
  :root {
    --bg: #16181c; --card: #1e2126; --ink: #e6e4df; --soft: #9aa0a8; --line: #33373e; --faint: #25292f;
    --blue: #6db3ee; --green: #55c79b; --amber: #e5a84b; --red: #f08a5d;
    --blue-bg: #1b2f42; --green-bg: #18342a; --amber-bg: #3a2d16; --red-bg: #41251a;
  }
}
* { box-sizing: border-box; }
body { margin: 0; background: var(--bg); color: var(--ink); font: 15px/1.5 system-ui, \"Segoe UI\", \"Liberation Sans\", sans-serif; }
main, header { max-width: 1320px; margin: 0 auto; padding: 0 24px; } header { padding-top: 24px; }
h1 { font-size: 25px; line-height: 1.2; margin: 2px 0 6px; letter-spacing: -.01em; font-weight: 650; }
h2 { font-size: 12px; margin: 0 0 8px; color: var(--soft); font-weight: 600; letter-spacing: .02em; } h2 b { color: var(--ink); font-weight: 600; }
p { margin: 0; } .over, .soft { color: var(--soft); font-size: 13px; } .lead { max-width: 78ch; }
.mono, pre, code { font-family: var(--mono); font-size: 12px; overflow-wrap: anywhere; }
.card { background: var(--card); border: 1px solid var(--line); border-radius: 8px; padding: 12px 14px; }
.tag { display: inline-block; border-radius: 4px; padding: 0 7px; font-size: 12px; line-height: 20px; font-weight: 600; white-space: nowrap; }
.tag, .t-grey { background: var(--faint); color: var(--soft); } .t-green { background: var(--green-bg); color: var(--green); }
.t-blue { background: var(--blue-bg); color: var(--blue); } .t-amber { background: var(--amber-bg); color: var(--amber); }
.t-red { background: var(--red-bg); color: var(--red); }
button { font: inherit; color: inherit; background: none; border: 0; padding: 0; text-align: left; cursor: pointer; }
:focus-visible { outline: 2px solid var(--blue); outline-offset: 2px; } .facts { display: flex; flex-wrap: wrap; gap: 6px; margin: 10px 0 0; }
.grid { display: grid; gap: 10px; grid-template-columns: repeat(auto-fit, minmax(min(100%, 290px), 1fr)); margin: 16px 0; }
.fate { display: flex; flex-direction: column; width: 100%; }
.fate { border-left: 4px solid var(--c, var(--line)); font-size: 13.5px; line-height: 1.45; }
.fate .top { width: 100%; display: flex; justify-content: space-between; gap: 8px; align-items: center; margin-bottom: 4px; }
.fate.on { box-shadow: 0 0 0 2px var(--blue); } .ladder { width: 100%; display: flex; margin: 8px 0 7px; }
.ladder i { flex: 1 0 auto; font: normal 11px/1.2 system-ui, sans-serif; color: var(--soft); border-top: 3px solid var(--line); padding-top: 3px; margin-right: 3px; }
.ladder i.r { border-color: var(--k); color: var(--ink); } .bar { position: sticky; top: 0; z-index: 3; background: var(--bg); border-bottom: 1px solid var(--line); padding: 8px 0; margin: 0 -4px; }
.bar .row { display: flex; align-items: center; gap: 6px; padding: 0 4px; }
.bar .row button { width: 34px; height: 32px; border-radius: 6px; text-align: center; border: 1px solid var(--line); background: var(--card); font-size: 13px; flex: none; }
.bar svg { margin: auto; } .bar path { fill: currentColor; stroke: currentColor; stroke-width: 1.6; stroke-linejoin: round; }
.bar .row button:hover { border-color: var(--blue); } .bar input[type=range] { flex: 1; min-width: 40px; accent-color: var(--blue); }
.bar label { white-space: nowrap; font-size: 13px; color: var(--soft); } .now { min-height: 28px; padding: 5px 4px 0; font-weight: 550; }
.now b { font: 600 12px var(--mono); color: var(--soft); margin-right: 8px; } .left { min-width: 0; } .events { padding: 0; }
.lanes { display: flex; padding: 10px 0 0; overflow: hidden; position: relative; }
.names { flex: none; width: 128px; padding-left: 14px; font-size: 12.5px; line-height: 1.15; }
.names div { display: flex; flex-direction: column; justify-content: center; white-space: nowrap; overflow: hidden; }
.names small { color: var(--soft); font-size: 11px; } .scroll { overflow-x: auto; flex: 1; min-width: 0; } svg { display: block; }
svg [hidden] { display: none; } svg text { font: 11px system-ui, \"Liberation Sans\", sans-serif; fill: var(--soft); }
svg .num { font: 10px var(--mono); text-anchor: middle; } svg .here, svg .here.num { fill: var(--ink); font-weight: 700; }
.l0 { stroke: var(--line); stroke-width: 1; } .life { stroke: var(--soft); stroke-width: 2; stroke-opacity: .6; }
.k-blue { stroke: var(--blue); stroke-width: 3; } .k-amber { stroke: var(--amber); stroke-width: 4; }
.k-green { stroke: var(--green); stroke-width: 4; } .thin { stroke-dasharray: 2 3; stroke-width: 2; }
.call { stroke: var(--soft); stroke-width: 1; stroke-opacity: .45; stroke-dasharray: 1 3; }
.pk { stroke: var(--soft); stroke-width: 1.2; stroke-opacity: .75; fill: none; }
.pk.yes { stroke: var(--blue); stroke-width: 2.2; stroke-opacity: 1; } .pk.no { stroke: var(--red); stroke-dasharray: 3 2; }
.hit { stroke: transparent; stroke-width: 11; cursor: help; } .hit:hover + .pk, .hit:focus + .pk { stroke: var(--ink); stroke-width: 3; }
.hit:focus { outline: none; } .sign { stroke: var(--card); stroke-width: 1.5; fill: var(--soft); }
.s-ring { fill: var(--card); stroke: var(--soft); stroke-width: 2; } .s-yes, .s-told { fill: var(--blue); }
.s-commit { fill: var(--blue); } .s-rec { fill: var(--card); stroke: var(--amber); stroke-width: 3; }
.s-win, .s-star, .s-part { fill: var(--green); } .s-x { fill: none; stroke: var(--red); stroke-width: 3; }
.s-no, .s-up, .s-fail { fill: var(--red); } .s-job { fill: var(--ink); }
.area { fill: var(--soft); fill-opacity: .22; } .band { fill: var(--blue); fill-opacity: .12; } .fog { fill: var(--card); fill-opacity: .62; pointer-events: none; }
.gap { fill: var(--faint); cursor: pointer; } .gap:hover { fill: var(--line); } .col { fill: transparent; cursor: pointer; }
.key { display: flex; flex-wrap: wrap; gap: 2px 14px; font-size: 12px; color: var(--soft); margin: 8px 0 14px; }
.key span { display: inline-flex; align-items: center; gap: 4px; }
.cols { display: grid; grid-template-columns: minmax(0, 1fr) minmax(0, 420px); gap: 12px; align-items: start; margin: 12px 0 40px; }
.state { display: grid; gap: 10px; position: sticky; top: 96px; max-height: calc(100vh - 108px); overflow: auto; }
.tree div, .hist div, .net div { display: flex; align-items: start; gap: 8px; font: 12px/1.55 var(--mono); padding: 1px 5px; margin: 0 -5px; border-radius: 4px; }
.tree span:first-child, .hist span:first-child, .net span:first-child { flex: 1; min-width: 0; overflow-wrap: anywhere; }
.tree .hid { color: var(--soft); } .tree .new { background: var(--blue-bg); } .hist .lost span:first-child { text-decoration: line-through; color: var(--red); }
.tree .by, .net .by, .hist .by { font: 11.5px/1.7 system-ui, sans-serif; color: var(--soft); white-space: nowrap; }
.verdict { font-size: 13px; margin-top: 8px; padding-top: 8px; border-top: 1px solid var(--line); }
.hist h3 { font-size: 12.5px; margin: 6px 0 1px; font-weight: 600; } .hist h3:first-of-type { margin-top: 0; }
ol.story { list-style: none; margin: 0; padding: 6px 0; } .story li { border-left: 3px solid transparent; }
.story .ev { display: grid; grid-template-columns: 34px 20px 1fr; gap: 4px; width: 100%; padding: 4px 12px 4px 6px; align-items: start; font-size: 14px; line-height: 1.45; }
.story .ev > b { font: 11.5px/20px var(--mono); color: var(--soft); text-align: right; } .story .ev svg { margin-top: 2px; }
.story li:hover { background: var(--faint); } .story li.at { background: var(--blue-bg); border-color: var(--blue); }
.story .minor .ev { color: var(--soft); font-size: 13px; } .story .fold .ev { color: var(--soft); font-size: 12.5px; } .story .later { opacity: .5; }
.more { padding: 0 14px 6px 68px; font: 12px/1.5 var(--mono); color: var(--soft); overflow-wrap: anywhere; }
#tip { position: fixed; z-index: 9; max-width: 340px; pointer-events: none; font-size: 12.5px; padding: 7px 10px; box-shadow: 0 4px 18px #0003; overflow-wrap: anywhere; }
[hidden] { display: none !important; }
@media (max-width: 999px) {
  .now { min-height: 50px; }
  .cols { grid-template-columns: minmax(0, 1fr); } .left { display: contents; } .events { order: 2; } .key { margin: 0; }
  .state { position: static; max-height: none; order: 1; grid-template-columns: repeat(auto-fit, minmax(min(100%, 340px), 1fr)); align-items: start; }
}
@media (max-width: 599px) {
  main, header { padding: 0 14px; }
  header { padding-top: 16px; } h1 { font-size: 21px; }
  body { padding-bottom: 124px; }
  .bar { position: fixed; top: auto; bottom: 0; left: 0; right: 0; margin: 0; border: 0; border-top: 1px solid var(--line); padding: 8px 10px; }
  .now { font-size: 13.5px; line-height: 1.35; min-height: 60px; } .wide { display: none; }
  .names { width: 77px; padding-left: 8px; font-size: 11.5px; } .names small { font-size: 9.5px; }
  .more { padding-left: 14px; }
}
@media print {
  :root { --bg: #fff; --card: #fff; } body { font-size: 11pt; padding: 0; } .bar { position: static; border: 0; } .bar .row, #tip { display: none; }
  .state { position: static; max-height: none; overflow: visible; } .cols, .left { display: block; } .state { margin-bottom: 12px; }
  .fate, .lanes, .state .card, li { break-inside: avoid; } .fog { display: none; } .story .later { opacity: 1; }
  * { print-color-adjust: exact; -webkit-print-color-adjust: exact; }
}
</style>
<style id=\"lit\"></style>
</head>
<body>
<header>
<p class=\"over\" id=\"over\"></p>
<h1 id=\"head\">Which attempt’s output counts</h1>
<p class=\"lead\" id=\"lead\"></p>
<p class=\"facts\" id=\"facts\"></p>
</header>
<main>
<noscript><p class=\"lead\">This page shows its run by a script, and scripts are off. Below are the lines that it would show, as <code>mrsim play --json</code> prints them.</p><style>#run { display: block; white-space: pre-wrap; font: 12px/1.5 var(--mono); overflow-wrap: anywhere; max-width: 1320px; margin: 16px auto 40px; padding: 0 24px; }</style></noscript>
<div id=\"app\" hidden>
<section id=\"fates\" class=\"grid\" aria-label=\"Attempts\"></section>
<div class=\"bar\">
<div class=\"row\">
<button data-go=\"first\" aria-label=\"first step\"><svg width=\"16\" height=\"16\" viewBox=\"0 0 16 16\"><path d=\"M3 3v10M13 3L6 8l7 5z\"/></svg></button>
<button data-go=\"prev\" aria-label=\"one step back\"><svg width=\"16\" height=\"16\" viewBox=\"0 0 16 16\"><path d=\"M11 3L4 8l7 5z\"/></svg></button>
<button data-go=\"play\" aria-label=\"play\"><svg width=\"16\" height=\"16\" viewBox=\"0 0 16 16\"><path d=\"M4 3l9 5-9 5z\"/><path d=\"M5 3v10M11 3v10\" hidden/></svg></button>
<button data-go=\"next\" aria-label=\"one step on\"><svg width=\"16\" height=\"16\" viewBox=\"0 0 16 16\"><path d=\"M5 3l7 5-7 5z\"/></svg></button>
<button data-go=\"last\" aria-label=\"last step\"><svg width=\"16\" height=\"16\" viewBox=\"0 0 16 16\"><path d=\"M13 3v10M3 3l7 5-7 5z\"/></svg></button>
<input type=\"range\" id=\"slider\" min=\"0\" value=\"0\" aria-label=\"step\">
<label class=\"wide\" id=\"count\"></label>
<label><input type=\"checkbox\" id=\"all\"> all<span class=\"wide\"> events</span></label>
</div>
<p class=\"now\" id=\"now\" aria-live=\"polite\"></p>
</div>
<div class=\"cols\">
<div class=\"left\">
<section class=\"card lanes\" aria-label=\"Lanes\" id=\"lanes\"><div class=\"names\" id=\"names\"></div><div class=\"scroll\" id=\"scroll\"></div></section>
<p class=\"key\" id=\"key\"></p>
<section class=\"card events\" aria-label=\"Events\"><ol class=\"story\" id=\"story\"></ol></section>
</div>
<div class=\"state\">
<section class=\"card\"><h2 id=\"treehead\"></h2><div class=\"tree\" id=\"tree\"></div><p class=\"verdict\" id=\"reader\"></p></section>
<section class=\"card\"><h2>Job history: <b>only what is flushed survives a crash</b></h2><div class=\"hist\" id=\"hist\"></div></section>
<section class=\"card\"><h2 id=\"nethead\"></h2><div class=\"net\" id=\"net\"></div></section>
</div>
</div>
</div>
<div id=\"tip\" class=\"card\" role=\"tooltip\" hidden></div>
</main>
<script type=\"application/json\" id=\"run\">
";
