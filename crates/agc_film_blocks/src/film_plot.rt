//! The script that draws samples over time on the page of a film.

/// The script with its style, from `clients/python/agc_web/page/film/plot.html`.
pub const PLOT: &str = "<style>
#plot { flex: 1 1 480px; min-width: 0; }
#plot-choice { display: flex; flex-wrap: wrap; gap: 4px 14px; max-height: 84px; margin: 0 0 8px; overflow: auto; }
#plot-area { position: relative; border-radius: 6px; background: #0b0e0b; cursor: col-resize; touch-action: pan-y; user-select: none; }
#plot-canvas { position: absolute; inset: 0; width: 100%; height: 100%; }
#plot-labels p { position: absolute; right: 8px; left: 64px; margin: 0; overflow: hidden; font-size: 12.5px; line-height: 20px; white-space: nowrap; text-overflow: ellipsis; pointer-events: none; }
#plot-cursor { position: absolute; top: 0; bottom: 18px; width: 1.5px; margin-left: -.75px; background: #fff; pointer-events: none; }
#plot-alarms { margin: 6px 0 0; color: #ff8fc6; }
</style>
<script>
(() => {
'use strict';

const MOST_CURVES = 6;
const CURVE_COLOURS = ['#5dff9b', '#ffcf70', '#9fd0ff', '#ff9d8a', '#d7b3ff', '#f4f4ee'];
const GRID_COLOUR = '#3d423f';
const TEXT_COLOUR = '#c9cac2';
const ALARM_COLOUR = '#ff4fa3';
const LEFT = 58; // pixels of the labels of values
const BOTTOM = 18; // pixels of those of time
const HEAD = 20; // pixels of a curve's own label
const LEAST_HEIGHT = 52; // pixels of a curve with its label
const LABEL_HEIGHT = 14; // pixels of a label of a value
const AXIS_PARTS = 5;

function stepOf(span, parts) {
  const power = 10 ** Math.floor(Math.log10(span / parts));
  return [1, 2, 5, 10].map((each) => each * power).find((step) => span / step <= parts);
}

function multiples(least, greatest, step) {
  const first = Math.ceil(least / step - 1e-9);
  const count = Math.max(0, Math.floor(greatest / step + 1e-9) - first + 1);
  return Array.from({ length: Math.min(count, 50) }, (_, i) => (first + i) * step);
}

const axisText = (value, step) => (Math.abs(value) >= 1e7 || (value && step < 1e-5) ? value.toExponential(1) : value.toFixed(Math.max(0, -Math.floor(Math.log10(step) + 1e-9))));

function boundsOf(amounts) {
  const least = amounts.reduce((one, amount) => Math.min(one, amount), Infinity);
  const greatest = amounts.reduce((one, amount) => Math.max(one, amount), -Infinity);
  if (least < greatest) return [least, greatest];
  const middle = amounts.length ? least : 0;
  return [middle - Math.max(1, Math.abs(middle) / 10), middle + Math.max(1, Math.abs(middle) / 10)];
}

function drawAxis(pen, bounds, { top, bottom, width }) {
  const step = stepOf(bounds[1] - bounds[0], AXIS_PARTS);
  const [least, greatest] = [Math.floor(bounds[0] / step) * step, Math.ceil(bounds[1] / step) * step];
  const yOf = (amount) => bottom - ((amount - least) / (greatest - least)) * (bottom - top);
  const all = multiples(least, greatest, step);
  pen.textAlign = 'right';
  for (const amount of (bottom - top) / all.length < LABEL_HEIGHT ? [least, greatest] : all) {
    pen.fillStyle = GRID_COLOUR;
    pen.fillRect(LEFT, yOf(amount), width, 1);
    pen.fillStyle = TEXT_COLOUR;
    pen.fillText(axisText(amount, step), LEFT - 5, yOf(amount) + 4);
  }
  return yOf;
}

const NUMBER = /^-?[0-9]+(\\.[0-9]+)?$/;
const CODE = /^0[0-9]/; // octal, as alarm codes are written

function readSamples(text) {
  const [heading, ...rows] = text.replaceAll('\\r', '').replace(/\\n$/, '').split(LINE);
  const names = heading.split(',');
  const table = { columns: names.slice(2).map((name) => ({ name, fields: [], amounts: null })), cycles: [], fault: '', more: 0 };
  if (names[0] !== 'cycle' || names[1] !== 'seconds' || names.length < 3 || names.includes('')) {
    return { ...table, columns: [], fault: 'line 1: the heading of a table is cycle,seconds,NAME,..' };
  }
  rows.forEach((row, i) => {
    const fields = row.split(',');
    const fault = faultOfRow(names, fields, table.cycles.at(-1) ?? 0);
    if (!fault) takeRow(table, fields);
    else if (table.fault) table.more += 1;
    else table.fault = `line ${i + 2}: ${fault}`;
  });
  return table;
}

function faultOfRow(names, fields, before) {
  if (fields.length !== names.length) return `fields: ${fields.length}; the heading has ${names.length}`;
  if (!/^[0-9]{1,15}$/.test(fields[0])) return 'the cycle is no number';
  if (Number(fields[0]) < before) return 'the cycle is below that of the row before';
  const wrong = fields.findIndex((field) => field !== '' && !NUMBER.test(field));
  return wrong < 0 ? '' : `${names[wrong]} is no number`;
}

function takeRow(table, fields) {
  table.cycles.push(Number(fields[0]));
  table.columns.forEach((column, i) => column.fields.push(fields[i + 2]));
}

const hasNumbers = ({ fields }) => fields.some(Boolean) && !fields.some((field) => CODE.test(field));

function amountsOf(column) {
  const isCode = column.fields.some((field) => CODE.test(field));
  column.amounts ??= Float64Array.from(column.fields, (field) => (field === '' ? NaN : isCode ? parseInt(field, 8) : Number(field)));
  return column.amounts;
}

const STRIP = 84; // pixels of a curve
const PROG_ROW = 12;
const PROG_BIT = 9;

const source = find('samples').textContent.slice(LINE.length);
const table = readSamples(source.includes(BACKSLASH) ? readName(source) : source);
const plot = { chosen: [], isDragged: false };

function alarmsOf(run) {
  const found = [];
  let isLit = false;
  run.words.forEach((word, i) => {
    if (Math.floor(word / WORD_SIZE) !== PROG_ROW) return;
    const wasLit = isLit || (run.from > 0 && run.cycles[i] === run.from);
    isLit = (word >> (PROG_BIT - 1)) % 2 === 1;
    if (isLit && !wasLit) found.push(run.cycles[i]);
  });
  return found;
}

const alarms = alarmsOf(runs[0]);

function element(tag, attributes, ...children) {
  const made = document.createElement(tag);
  for (const [name, value] of Object.entries(attributes)) made.setAttribute(name, value);
  made.append(...children);
  return made;
}


const plotWidth = () => Math.max(1, find('plot-area').clientWidth - LEFT - 8);
const plotHeight = () => plot.chosen.length * STRIP + BOTTOM;
const xOf = (cycle) => LEFT + (plotWidth() * (cycle - begin)) / Math.max(1, end - begin);

function cycleAt(event) {
  const x = event.clientX - find('plot-area').getBoundingClientRect().left - LEFT;
  return Math.round(begin + Math.min(1, Math.max(0, x / plotWidth())) * (end - begin));
}

function drag(event) {
  if (event.type === 'pointerdown' && event.button === 0) {
    find('plot-area').setPointerCapture(event.pointerId);
    plot.isDragged = true;
  }
  if (plot.isDragged) go(cycleAt(event));
}

function drop() {
  plot.isDragged = false;
}

function moveByKey(event) {
  const small = Math.max(1, Math.round((end - begin) / 100));
  const by = { ArrowLeft: -small, ArrowDown: -small, ArrowRight: small, ArrowUp: small, PageDown: -10 * small, PageUp: 10 * small }[event.key];
  if (!by) return;
  event.preventDefault();
  event.stopPropagation();
  go(Math.floor(now) + by);
}


function drawTimes(pen, height) {
  const [first, last] = [begin / CYCLES_A_SECOND, Math.max(end, begin + 1) / CYCLES_A_SECOND];
  const step = stepOf(last - first, Math.max(2, plotWidth() / 80));
  pen.textAlign = 'center';
  for (const seconds of multiples(first, last, step)) {
    const x = xOf(seconds * CYCLES_A_SECOND);
    pen.fillStyle = GRID_COLOUR;
    pen.fillRect(x, 0, 1, height - BOTTOM);
    pen.fillStyle = TEXT_COLOUR;
    pen.fillText(`${axisText(seconds, step)} s`, Math.min(x, LEFT + plotWidth() - 8), height - 4);
  }
}

function drawCurve(pen, amounts, rows, yOf) {
  let isBroken = true;
  const line = (x, amount) => {
    if (isBroken) pen.moveTo(x - 0.5, yOf(amount));
    pen.lineTo(x, yOf(amount));
    isBroken = false;
  };
  pen.beginPath();
  for (let i = rows.first; i < rows.behind;) {
    const x = xOf(table.cycles[i]);
    let [least, greatest, last] = [amounts[i], amounts[i], i];
    while (last + 1 < rows.behind && xOf(table.cycles[last + 1]) - x < 0.5 && !Number.isNaN(amounts[last + 1])) {
      last += 1;
      least = Math.min(least, amounts[last]);
      greatest = Math.max(greatest, amounts[last]);
    }
    if (Number.isNaN(amounts[i])) isBroken = true;
    else for (const amount of new Set([amounts[i], least, greatest, amounts[last]])) line(x, amount);
    i = last + 1;
  }
  pen.stroke();
}

function drawStrip(pen, column, i, rows) {
  const [top, bottom] = [i * STRIP + HEAD, (i + 1) * STRIP - 4];
  const amounts = amountsOf(column);
  const yOf = drawAxis(pen, boundsOf(amounts.subarray(rows.first, rows.behind).filter((amount) => !Number.isNaN(amount))), { top, bottom, width: plotWidth() });
  pen.save();
  pen.beginPath();
  pen.rect(LEFT - 1, top - 2, plotWidth() + 2, bottom - top + 4);
  pen.clip();
  Object.assign(pen, { strokeStyle: CURVE_COLOURS[i], lineWidth: 1.5, lineJoin: 'round' });
  drawCurve(pen, amounts, rows, yOf);
  pen.restore();
}

function draw() {
  const canvas = find('plot-canvas');
  const scale = window.devicePixelRatio || 1;
  const height = plotHeight();
  find('plot-area').style.height = `${height}px`;
  Object.assign(canvas, { width: Math.round(find('plot-area').clientWidth * scale), height: Math.round(height * scale) });
  const pen = canvas.getContext('2d');
  pen.scale(scale, scale);
  pen.font = '11px system-ui, sans-serif';
  drawTimes(pen, height);
  const rows = { first: Math.max(0, lastUpTo(table.cycles, begin)), behind: Math.min(table.cycles.length, lastUpTo(table.cycles, end) + 2) };
  plot.chosen.forEach((column, i) => drawStrip(pen, column, i, rows));
  pen.fillStyle = ALARM_COLOUR;
  for (const cycle of alarms) pen.fillRect(xOf(cycle) - 0.75, 0, 1.5, height - BOTTOM);
  follow();
}

function follow() {
  const row = lastUpTo(table.cycles, now);
  const area = find('plot-area');
  find('plot-cursor').style.left = `${xOf(now)}px`;
  const values = plot.chosen.map((column, i) => {
    const value = column.fields[row] || '\u{2013}';
    find('plot-labels').children[i].lastChild.textContent = value;
    return `${column.name} ${value}`;
  });
  if (document.body.classList.contains('playing')) return;
  area.setAttribute('aria-valuenow', Math.floor(now));
  area.setAttribute('aria-valuetext', [`${(now / CYCLES_A_SECOND).toFixed(3)} s`, ...values].join(', '));
}


function choose(columns) {
  plot.chosen = columns;
  const isFull = columns.length >= MOST_CURVES;
  table.columns.forEach((column, i) => {
    const box = find('plot-choice').children[i].firstChild;
    box.checked = columns.includes(column);
    box.disabled = isFull && !box.checked;
  });
  find('plot-labels').replaceChildren(...columns.map(({ name }, i) => {
    const label = element('p', {}, element('b', {}, name), ' ', element('span', {}));
    label.style.top = `${i * STRIP}px`;
    label.style.color = CURVE_COLOURS[i];
    return label;
  }));
  draw();
}

function buildChoice() {
  const boxes = table.columns.map((column) => {
    const box = element('input', { type: 'checkbox' });
    box.addEventListener('change', () => choose(table.columns.filter((each) => (each === column ? box.checked : plot.chosen.includes(each)))));
    return element('label', {}, box, ` ${column.name}`);
  });
  const choice = element('div', { id: 'plot-choice', role: 'group', 'aria-label': `Columns to draw, up to ${MOST_CURVES}` }, ...boxes);
  choice.addEventListener('keydown', (event) => { if (event.key === ' ') event.stopPropagation(); });
  return choice;
}

function buildPlot() {
  const area = element('div', { id: 'plot-area', role: 'slider', tabindex: '0', 'aria-label': 'Machine time: the cursor of the plot', 'aria-valuemin': begin, 'aria-valuemax': end },
    element('canvas', { id: 'plot-canvas' }), element('div', { id: 'plot-labels' }), element('div', { id: 'plot-cursor' }));
  const times = alarms.map((cycle) => `${(cycle / CYCLES_A_SECOND).toFixed(3)} s`).join(', ');
  const about = alarms.length ? [element('p', { id: 'plot-alarms' }, `Alarms, pink: the PROG lamp goes on at ${times}.`)] : [];
  const most = table.columns.length > MOST_CURVES ? `, up to ${MOST_CURVES} at a time` : '';
  const heading = element('h2', {}, `Samples${runs.length > 1 ? ' of the left run' : ''}${most}`);
  find('runs').append(element('section', { id: 'plot', 'aria-label': 'Samples over time' }, heading, buildChoice(), area, ...about));
  for (const kind of ['pointerdown', 'pointermove']) area.addEventListener(kind, drag);
  for (const kind of ['pointerup', 'pointercancel', 'lostpointercapture']) area.addEventListener(kind, drop);
  area.addEventListener('keydown', moveByKey);
  choose(table.columns.filter(hasNumbers).slice(0, MOST_CURVES));
  new ResizeObserver(draw).observe(area);
  new MutationObserver(follow).observe(document.body, { attributes: true, attributeFilter: ['data-cycle', 'class'] });
}

if (table.fault) find('trouble').textContent += ` The file of samples, ${table.fault}.${table.more ? ` ${table.more} more.` : ''}`;
else if (!table.cycles.length) find('trouble').textContent += ' The file of samples has no row.';
if (table.cycles.length && runs[0]?.section) buildPlot();
})();
</script>
";
