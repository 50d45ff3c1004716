//! The page of a timeline before its lines: its layout and its controls, without external resources.

/// The text before the lines.
pub const JOBS_HEAD: &str = "<!doctype html>
<html lang='en'>
<head>
<meta charset='utf-8'>
<meta http-equiv='Content-Security-Policy' content=\"default-src 'none'; script-src 'sha256-izpiWmC4GZguYI/iVH1j6ngztEaKr2x4CyVm5dh7WsE='; style-src 'sha256-EmSzkmh2VJAVGyKPLfDpEzk2yhaY5b4U1LYSCVxuyrA='\">
<meta name='viewport' content='width=device-width, initial-scale=1'>
<title>Executive timeline</title>
<style>
body { margin: 0 auto; padding: 16px 20px; background: #17191a; color: #e6e6e0; font: 14px/1.45 system-ui, sans-serif; }
h1 { margin: 0 0 12px; font-size: 18px; font-weight: 600; overflow-wrap: anywhere; }
h2 { margin: 14px 0 6px; font-size: 14px; font-weight: 600; color: #b9bab2; }
#chart { display: block; width: 100%; border-radius: 6px; background: #0f1112; cursor: grab; touch-action: pan-y; }
#chart.dragged { cursor: grabbing; }
#buttons { display: flex; flex-wrap: wrap; gap: 8px; align-items: center; margin-bottom: 10px; }
button { min-width: 36px; padding: 5px 11px; border: 1px solid #6a6d68; border-radius: 5px; background: #303432; color: #f4f4ee; font: inherit; }
:focus-visible { outline: 3px solid #fff; outline-offset: 2px; }
#clock { margin-left: auto; font-variant-numeric: tabular-nums; }
#trouble { margin: 0; }
#trouble:not(:empty) { margin: 0 0 8px; padding: 4px 10px; border-left: 4px solid #ffb938; background: #302a1c; }
#about { min-height: 4.2em; margin: 10px 0 0; padding: 8px 12px; border-radius: 6px; background: #212425; font: 12px/1.4 ui-monospace, monospace; white-space: pre-wrap; }
#alarms { display: flex; flex-wrap: wrap; gap: 8px; align-items: center; margin: 10px 0 0; }
#alarms:empty { display: none; }
table { display: block; overflow-x: auto; border-collapse: collapse; font-variant-numeric: tabular-nums; }
th, td { padding: 2px 14px 2px 0; text-align: right; }
th:first-child, td:first-child { text-align: left; }
th { color: #b9bab2; font-weight: 600; }
#help { margin: 10px 0 0; color: #b9bab2; font-size: 12px; }
body.framed { padding: 8px 10px; }
.framed h1 { display: none; }
kbd { padding: 0 4px; border: 1px solid #6a6d68; border-radius: 3px; font: inherit; }
</style>
</head>
<body>
<h1 id='title'>Executive timeline</h1>
<p id='trouble' role='alert'></p>
<main id='page'>
<div id='buttons'>
<button id='left' title='Earlier (\u{2190})'>\u{25c0}</button>
<button id='right' title='Later (\u{2192})'>\u{25b6}</button>
<button id='out' title='Zoom out (-)'>\u{2212}</button>
<button id='in' title='Zoom in (+)'>+</button>
<button id='all' title='The whole run (Home)'>All</button>
<output id='clock'></output>
</div>
<canvas id='chart' tabindex='0' role='img' aria-describedby='help' aria-label='Who had the processor when: core sets, idle time, interrupts, tasks, alarms, marks and stolen cycles'></canvas>
<pre id='about' aria-live='polite'>Point at a bar.</pre>
<p id='alarms'></p>
<h2>Jobs</h2>
<table><thead><tr><th>Job<th>Started<th>Most at a time<th>Cycles in set 0<th>Share</tr></thead><tbody id='jobs-table'></tbody></table>
</main>
<p id='help'>The wheel, <kbd>+</kbd> and <kbd>-</kbd> zoom, dragging, <kbd>\u{2190}</kbd> and <kbd>\u{2192}</kbd> move, <kbd>Home</kbd> shows the whole run. The job in set 0 has the processor, unless an interrupt is served. Above, the number of core sets in use is red while none is left. A pink line is an alarm: there the PROG lamp goes on. Bars narrower than a pixel share one: the fainter, the less of it they take.</p>
";
