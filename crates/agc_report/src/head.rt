//! The page before and after its ropes: its layout, without external resources and without a script. The legend of the map.

/// The text before the ropes. The policy has the hash of the style.
pub(crate) const HEAD: &str = "<!doctype html>
<html lang='en'>
<head>
<meta charset='utf-8'>
<meta http-equiv='Content-Security-Policy' content=\"default-src 'none'; style-src 'sha256-FSuf4e7srRcmXyFNVCioYjWvJi0e23GPGw7hMGFgrWs='\">
<meta name='viewport' content='width=device-width, initial-scale=1'>
<title>Rope report</title>
<style>
body { margin: 0 auto; padding: 16px 20px; max-width: 1000px; background: #fff; color: #111; font: 14px/1.4 system-ui, sans-serif; }
h1 { margin: 0 0 8px; font-size: 20px; }
h2 { margin: 18px 0 6px; font-size: 17px; overflow-wrap: anywhere; }
h3 { margin: 16px 0 6px; font-size: 15px; break-after: avoid; }
p { margin: 4px 0; }
pre, code { font: 12px/1.4 ui-monospace, monospace; white-space: pre-wrap; overflow-wrap: anywhere; }
pre { margin: 6px 0; }
table { border-collapse: collapse; font-variant-numeric: tabular-nums; }
th, td { padding: 1px 14px 1px 0; border-bottom: 1px solid #ccc; text-align: left; vertical-align: top; }
.sums td { white-space: nowrap; }
tr, li { break-inside: avoid; }
.verdict { font-weight: 600; }
.verdict.odd { padding-left: 8px; border-left: 6px solid #a00000; }
svg { overflow: visible; }
.map { display: block; width: 100%; margin: 12px 0 4px; break-inside: avoid; }
.legend { font-size: 13px; }
.legend span { margin-right: 14px; white-space: nowrap; }
.legend svg { width: 18px; height: 12px; vertical-align: -1px; }
.map text { font: 11px system-ui, sans-serif; }
.map .number { font-weight: 700; }
.map .sum { text-anchor: end; }
.map .odd { font-weight: 700; }
.map .module { font-size: 11px; }
.bank { fill: #fff; stroke: #888; }
.bank.odd { stroke: #000; stroke-width: 2; fill: #fff; }
.code, .data { fill: none; stroke-width: 2; }
.legend .code, .legend .data { stroke-width: 8; }
.code { stroke: #7fa6cc; }
.data { stroke: #d6e2ee; }
.bad { fill: #a00000; stroke: none; }
.map .apart, .legend .apart { fill: none; stroke: #000; stroke-width: 1; }
@page { size: A4; margin: 14mm; }
@media print {
body { max-width: none; padding: 0; font-size: 10pt; }
section + section { break-before: page; }
thead { display: table-header-group; }
}
</style>
</head>
<body>
<h1>Rope report</h1>
";

/// The text after the ropes.
pub(crate) const TAIL: &str = "</body>
</html>
";

/// What the map shows.
pub(crate) const LEGEND: &str = "<p class='legend'>
<span><svg viewBox='0 0 12 8'><path class='code' d='M0 4h12'/></svg> reached</span>
<span><svg viewBox='0 0 12 8'><path class='data' d='M0 4h12'/></svg> not reached: data, or code of other banks</span>
<span><svg viewBox='0 0 12 8'><rect class='bank' width='12' height='8'/></svg> +0, or no word</span>
<span><svg viewBox='0 0 12 8'><rect class='bad' width='12' height='8'/></svg> wrong parity</span>
";

/// What marks mean if there is another rope.
pub(crate) const LEGEND_OF_TWO: &str =
    "<span><svg viewBox='0 0 12 8'><rect class='apart' x='1' y='1' width='10' height='6'/></svg> differs from the other rope</span>
";

/// How to read the map and the commands.
pub(crate) const LEGEND_END: &str = "</p>
<p class='legend'>Each row of a bank has 100 words, octal. A bank with a thick border has a wrong sum. In commands, ROPE is this file.</p>
";
