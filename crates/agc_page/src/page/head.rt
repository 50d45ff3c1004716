//! The page before its runs: its layout and its controls, without external resources.

/// The text before the runs.
pub const HEAD: &str = "<!doctype html>
<html lang='en'>
<head>
<meta charset='utf-8'>
<meta name='viewport' content='width=device-width, initial-scale=1'>
<title>DSKY film</title>
<style>
body { margin: 0 auto; padding: 16px 20px; max-width: 1060px; background: #17191a; color: #e6e6e0; font: 14px/1.45 system-ui, sans-serif; }
h1 { margin: 0 0 12px; font-size: 18px; font-weight: 600; }
h2 { display: -webkit-box; -webkit-box-orient: vertical; -webkit-line-clamp: 3; overflow: hidden; margin: 0 0 6px; font-size: 14px; font-weight: 600; color: #b9bab2; overflow-wrap: anywhere; }
#runs { display: flex; flex-wrap: wrap; gap: 24px; justify-content: center; }
.run { width: 460px; }
.dsky { display: grid; grid-template-columns: 180px 1fr; gap: 14px; padding: 18px; border-radius: 12px; background: linear-gradient(#a3a69f, #7d807a); box-shadow: inset 0 1px #d5d7d0, inset 0 -3px 6px #55575299, 0 6px 18px #000a; }
.lamps, .display { padding: 10px; border-radius: 6px; background: #22241f; box-shadow: inset 0 2px 8px #000; }
.lamps { display: grid; grid-template-columns: 1fr 1fr; grid-auto-rows: 1fr; gap: 6px; margin: 0; list-style: none; }
.lamps li { display: flex; align-items: center; justify-content: center; padding: 2px; border-radius: 2px; background: #3d3f39; color: #9a9c92; font-size: 10.5px; line-height: 1.15; text-align: center; }
.lamps li.lit { background: #fff3cf; color: #17180f; font-weight: 700; box-shadow: 0 0 10px #ffe9a680; }
.lamps li.caution.lit { background: #ffb938; box-shadow: 0 0 10px #ffb93880; }
.lit::before { content: '\\25cf\\a0'; }
.display { display: grid; grid-template-columns: 1fr 1fr; gap: 8px 12px; background: #0b0e0b; }
.name { display: block; border-radius: 2px; background: #35b568; color: #04150a; font-size: 11px; font-weight: 700; line-height: 17px; text-align: center; }
.acty { display: flex; align-items: center; justify-content: center; border-radius: 2px; background: #16201a; color: #5e7566; font-size: 13px; line-height: 1.2; text-align: center; }
.acty.lit { background: #4dff8f; color: #04150a; font-weight: 700; box-shadow: 0 0 14px #4dff8f66; }
.digits { display: flex; justify-content: center; gap: 5px; margin-top: 5px; }
.register { grid-column: 1 / 3; justify-content: flex-end; margin: 0; padding-top: 8px; border-top: 2px solid #1f7d45; }
.digits svg { width: 27px; height: 45px; transform: skewX(-5deg); }
polygon { fill: #131a15; }
polygon.lit { fill: #5dff9b; }
.playing .flash { animation: blink 0.66s steps(1) infinite; }
@keyframes blink { 66% { opacity: 0.05; } }
.keys { grid-column: 1 / 3; display: grid; grid-template-columns: repeat(7, 1fr); grid-auto-rows: 25px; gap: 0 7px; }
.keys span { grid-row: span 2; position: relative; display: flex; align-items: center; justify-content: center; margin: 3px 0; border: 2px solid #0c0d0b; border-radius: 5px; background: linear-gradient(#3b3d39, #262824); color: #f4f4ee; font-size: 12px; line-height: 1.1; text-align: center; box-shadow: 0 3px 3px #0007; }
.keys .figure { font-size: 20px; }
.keys .down { border-color: #fff; background: #f4f4ee; color: #17180f; font-weight: 700; box-shadow: none; transform: translateY(2px); }
.keys .down::after { content: '\\25bc'; position: absolute; top: 0; right: 3px; font-size: 9px; }
.copy { display: grid; grid-template-columns: 1fr 1fr; gap: 12px; margin-top: 10px; padding: 8px 12px; border-radius: 6px; background: #212425; }
.copy pre, .copy p { margin: 0; font: 12px/1.4 ui-monospace, monospace; white-space: pre-wrap; overflow-wrap: anywhere; }
#controls { position: sticky; bottom: 0; z-index: 1; margin-top: 12px; padding: 10px 12px; border-radius: 8px; background: #212425; box-shadow: 0 -4px 14px #000c; }
#strip, #time { display: block; box-sizing: border-box; width: 100%; margin: 0; }
#strip { height: 40px; }
#time { accent-color: #5dff9b; }
#buttons { display: flex; flex-wrap: wrap; gap: 8px; align-items: center; margin-top: 10px; }
button, select { padding: 5px 11px; border: 1px solid #6a6d68; border-radius: 5px; background: #303432; color: #f4f4ee; font: inherit; }
:focus-visible { outline: 3px solid #fff; outline-offset: 2px; }
#clock { margin-left: auto; font-variant-numeric: tabular-nums; }
#apart, #trouble { margin: 0; }
#apart:not(:empty), #trouble:not(:empty) { margin: 0 0 8px; padding: 4px 10px; border-left: 4px solid #ffb938; background: #302a1c; }
#help { margin: 10px 0 0; color: #b9bab2; font-size: 12px; }
kbd { padding: 0 4px; border: 1px solid #6a6d68; border-radius: 3px; font: inherit; }
@media (prefers-reduced-motion: reduce) { .playing .flash { animation: none; } }
</style>
</head>
<body>
<h1 id='title'>DSKY film</h1>
<p id='trouble' role='alert'></p>
<main id='runs'></main>
<section id='controls' aria-label='Time'>
<p id='apart' role='status'></p>
<canvas id='strip' role='img' aria-label='The changes of the panel and the keys over the time'></canvas>
<input id='time' type='range' min='0' value='0' aria-label='Machine cycle'>
<div id='buttons'>
<button id='start'>Start</button>
<button id='previous'>\u{25c0} Change</button>
<button id='play'>\u{25b6} Play</button>
<button id='next'>Change \u{25b6}</button>
<button id='end'>End</button>
<button id='difference' hidden>\u{2260} First difference</button>
<label>Speed <select id='speed'>
<option value='0.01'>1/100\u{d7}</option>
<option value='0.1'>1/10\u{d7}</option>
<option value='1' selected>1\u{d7} the machine\u{2019}s own</option>
<option value='10'>10\u{d7}</option>
<option value='100'>100\u{d7}</option>
<option value='1000'>1000\u{d7}</option>
</select></label>
<output id='clock'></output>
</div>
</section>
<p id='help'><kbd>Space</kbd> plays and stops, <kbd>\u{2190}</kbd> <kbd>\u{2192}</kbd> go from change to change, <kbd>Home</kbd> and <kbd>End</kbd> to the ends, <kbd>D</kbd> to the first difference, <kbd>1</kbd> to <kbd>4</kbd> set the speed, <kbd>&lt;</kbd> and <kbd>&gt;</kbd> lower and raise it. On the strip: below the line a stroke for each change, above it one for each key.</p>
";
