//! The script of a timeline, and the end of its page.

/// The text after the lines.
pub const JOBS_TAIL: &str = "<script>
'use strict';
const CYCLES_A_SECOND = 1024000 / 12;
const LINE = String.fromCharCode(10);
const BACKSLASH = String.fromCharCode(92);
const GAP = 40; // changes of core sets at most this many cycles apart are one step of the Executive,
const LONGEST_STEP = 400; // unless the step is longer than this
const TASKS = 9; // of LST2
const find = (id) => document.getElementById(id);

// Returns a name, in which a backslash with three octal digits stands for a byte.
function readName(text) {
  const bytes = [];
  for (let i = 0; i < text.length; i += 1) {
    const coded = text[i] === BACKSLASH;
    bytes.push(coded ? parseInt(text.slice(i + 1, i + 4), 8) : text.charCodeAt(i));
    if (coded) i += 3;
  }
  return new TextDecoder().decode(Uint8Array.from(bytes));
}

// Returns the contents of a core set, from the words behind its number.
function readSet([state, priority, , loc, , bankset, ...name]) {
  if (state === 'FREE') return null;
  return { state, priority, loc, bankset, name: readName(name.join(' ')) || `${loc} ${bankset}` };
}

const isSame = (one, other) => one === other || (one !== null && other !== null
  && one.state === other.state && one.priority === other.priority && one.loc === other.loc && one.bankset === other.bankset);

// The Executive: what each core set holds, and which job that is. A step of it takes several orders; the sets are looked at
// when it is over.
class Executive {
  constructor() {
    this.now = []; // what the sets hold, as the lines say
    this.settled = []; // the same after the last step
    this.jobs = []; // the job in each set
    this.open = []; // the bar of each set that has not ended
    this.rows = []; // the bars of each set
    this.idle = []; // the stretches in which set 0 holds no ready job
    this.idleFrom = null;
    this.used = { cycles: [], counts: [] };
    this.alive = new Map(); // how many jobs of a name there are
    this.names = new Map(); // of a name how many jobs began, and the most at a time
    this.changed = new Set();
    this.first = this.last = null;
  }

  change(cycle, set, words) {
    if (this.last !== null && (cycle - this.last > GAP || cycle - this.first > LONGEST_STEP)) this.settle();
    if (this.last === null) this.first = cycle;
    this.last = cycle;
    this.now[set] = readSet(words);
    this.changed.add(set);
  }

  // Ends a step: follows the jobs from set to set.
  settle() {
    if (this.last === null) return;
    const before = this.now.map((_, set) => this.settled[set] ?? null);
    const jobs = this.now.map((_, set) => this.jobs[set] ?? null);
    const after = this.follow(before, jobs);
    this.now.forEach((held, set) => { this.jobs[set] = held && (after[set] ?? this.begin(held)); });
    for (const job of jobs) if (job && !this.jobs.includes(job)) this.alive.set(job.name, this.alive.get(job.name) - 1);
    for (const job of this.jobs) if (job && !jobs.includes(job)) this.count(job);
    this.now.forEach((held, set) => this.draw(set, held, jobs[set]));
    this.drawIdle();
    this.used.cycles.push(this.last);
    this.used.counts.push(this.now.filter(Boolean).length);
    this.settled = [...this.now];
    this.changed.clear();
    this.first = this.last = null;
  }

  // Returns the job of each set after a step, or null for one that began in it. Set 0 may have changed places with another.
  follow(before, jobs) {
    const after = this.now.map((held, set) => (before[set] && held ? jobs[set] : null));
    if (!this.changed.has(0)) return after;
    const others = [...this.changed].filter((set) => set > 0);
    const moved = others.find((set) => before[set] && isSame(this.now[0], before[set]));
    if (moved !== undefined) {
      after[0] = jobs[moved];
      after[moved] = this.now[moved] && jobs[0];
      return after;
    }
    const [running, next] = [before[0], this.now[0]];
    const gone = others.find((set) => before[set] === null && this.now[set] && running && next && next.priority !== running.priority
      && this.now[set].priority === running.priority);
    if (gone !== undefined) [after[0], after[gone]] = [null, jobs[0]];
    return after;
  }

  // Begins a job, which has the name of its first place.
  begin(held) {
    const known = this.names.get(held.name) ?? { started: 0, most: 0, cycles: 0 };
    known.started += 1;
    this.names.set(held.name, known);
    return { name: held.name, number: known.started };
  }

  count(job) {
    const alive = (this.alive.get(job.name) ?? 0) + 1;
    this.alive.set(job.name, alive);
    const known = this.names.get(job.name);
    known.most = Math.max(known.most, alive);
  }

  // Ends the bar of a set, and begins another, if its job, its state or its priority changed.
  draw(set, held, job) {
    const open = this.open[set];
    this.rows[set] ??= [];
    if (open && held && job === this.jobs[set] && open.state === held.state && open.priority === held.priority) {
      open.then = held;
      return;
    }
    if (open) open.to = this.last;
    this.open[set] = held && { from: this.last, to: null, job: this.jobs[set], state: held.state, priority: held.priority, place: held, then: held };
    if (held) this.rows[set].push(this.open[set]);
  }

  drawIdle() {
    const isIdle = this.now[0]?.state !== 'READY';
    if (isIdle && this.idleFrom === null) this.idleFrom = this.last;
    if (!isIdle && this.idleFrom !== null) {
      this.idle.push({ from: this.idleFrom, to: this.last });
      this.idleFrom = null;
    }
  }

  end(cycle) {
    this.settle();
    for (const row of this.rows) for (const bar of row.slice(-1)) bar.to ??= cycle;
    if (this.idleFrom !== null) this.idle.push({ from: this.idleFrom, to: cycle });
  }
}

// The Waitlist: T3RUPT takes the first task off LST2, and all behind it move up.
class Waitlist {
  constructor() {
    this.now = Array(TASKS).fill('');
    this.before = null; // LST2 before what T3RUPT does next; null while it is not served
    this.calls = [];
  }

  change(cycle, number, text) {
    this.now[number] = text;
    if (this.before === null) return;
    if (this.before.slice(1).every((task, i) => task === this.now[i])) {
      const [address, banks, ...name] = this.before[0].split(' ');
      this.calls.push({ cycle, name: readName(name.join(' ')) || `${address} ${banks}` });
      this.before = [...this.now];
    } else if (this.hasNewTask()) {
      this.before = [...this.now];
    }
  }

  // Returns whether LST2 is what it was, with a task put in.
  hasNewTask() {
    const at = this.now.findIndex((task, i) => task !== this.before[i]);
    return at >= 0 && this.before.slice(at, TASKS - 1).every((task, i) => task === this.now[at + 1 + i]);
  }

  serve(name) {
    this.before = name === 'T3RUPT' ? [...this.now] : null;
  }
}

// Reads the lines of the run.
class Reader {
  constructor() {
    this.run = { rope: '', script: '', limit: '', from: 0, end: null, reason: '', slice: 1, marks: [], hits: [], alarms: [], services: [], stolen: new Map() };
    this.executive = new Executive();
    this.waitlist = new Waitlist();
  }

  read(text) {
    for (const line of text.split(LINE)) {
      const words = line.split(' ');
      if (words[0] >= '0' && words[0] <= '9~') this.readChange(Number(words[0]), words);
      else this.readAbout(words[0], line.slice(words[0].length + 1));
    }
    return this.run.end !== null;
  }

  readChange(cycle, words) {
    const { services } = this.run;
    const kind = words[1];
    if (kind === 'SET') {
      this.executive.change(cycle, Number(words[2]), words.slice(3));
    } else if (kind === 'LST2') {
      this.waitlist.change(cycle, Number(words[2]), words.slice(3).join(' '));
    } else if (kind === 'RUPT') {
      services.push({ from: cycle, to: null, name: words[2] });
      this.waitlist.serve(words[2]);
    } else if (kind === 'RESUME') {
      if (services.length) services.at(-1).to = cycle;
      this.waitlist.serve('');
    } else if (kind === 'MARK') {
      this.run.hits.push({ cycle, name: this.run.marks[Number(words[2])] });
    } else if (kind === 'ALARM') {
      this.run.alarms.push({ cycle, name: 'PROG' });
    } else if (kind === 'STOLEN') {
      this.run.stolen.set(cycle / this.run.slice, Number(words[2]));
    }
  }

  readAbout(word, rest) {
    const { run } = this;
    if (word === 'stop' || word === 'to') {
      run.end = Number(rest.split(' ')[0]);
      run.reason = rest.split(' ')[1] ?? '';
      for (const service of run.services.slice(-1)) service.to ??= run.end;
      this.executive.end(run.end);
    } else if (word === 'from' || word === 'slice') {
      run[word] = Number(rest);
    } else if (word === 'mark') {
      run.marks.push(readName(rest));
    } else if (word === 'rope' || word === 'script' || word === 'limit') {
      run[word] = readName(rest);
    }
  }
}

// Returns the number of rising values up to this one.
function countUpTo(values, value) {
  let low = 0;
  let high = values.length;
  while (low < high) {
    const middle = (low + high) >> 1;
    if (values[middle] <= value) low = middle + 1; else high = middle;
  }
  return low;
}

// A row of bars that do not overlap.
class Row {
  constructor(name, bars) {
    this.name = name;
    this.bars = bars;
    this.starts = Float64Array.from(bars, (bar) => bar.from);
    this.ends = Float64Array.from(bars, (bar) => bar.to);
    this.sums = new Float64Array(bars.length + 1); // the cycles of the bars before each
    bars.forEach((bar, i) => { this.sums[i + 1] = this.sums[i] + bar.to - bar.from; });
  }

  // Returns the bar at a cycle, if there is one.
  at(cycle) {
    const bar = this.bars[countUpTo(this.starts, cycle) - 1];
    return bar && cycle < bar.to ? bar : null;
  }

  // Returns how many cycles of the bars lie before a cycle.
  before(cycle) {
    const last = countUpTo(this.starts, cycle) - 1;
    return last < 0 ? 0 : this.sums[last] + Math.min(cycle, this.ends[last]) - this.starts[last];
  }

  // Returns how many cycles of the bars lie in a part of the run.
  within(from, to) {
    return this.before(to) - this.before(from);
  }
}

// A row of points in time.
class Ticks {
  constructor(name, ticks) {
    this.name = name;
    this.ticks = ticks;
    this.cycles = Float64Array.from(ticks, (tick) => tick.cycle);
  }

  // Returns the tick next to a cycle, if it is near.
  near(cycle, distance) {
    const after = countUpTo(this.cycles, cycle);
    const found = [this.ticks[after - 1], this.ticks[after]].filter((tick) => tick && Math.abs(tick.cycle - cycle) <= distance);
    return found.sort((one, other) => Math.abs(one.cycle - cycle) - Math.abs(other.cycle - cycle))[0] ?? null;
  }
}

// The cycles that counters took, by slices of time.
class Stolen {
  constructor(slice, counts, end) {
    this.slice = slice;
    this.sums = new Float64Array(Math.floor(end / slice) + 2);
    for (let i = 0; i + 1 < this.sums.length; i += 1) this.sums[i + 1] = this.sums[i] + (counts.get(i) ?? 0);
    this.most = 0;
    counts.forEach((count) => { this.most = Math.max(this.most, count / slice); });
  }

  // Returns the share of stolen cycles in the slices of a part of the run.
  share(from, to) {
    const first = Math.min(Math.floor(from / this.slice), this.sums.length - 2);
    const last = Math.min(Math.max(first + 1, Math.ceil(to / this.slice)), this.sums.length - 1);
    return (this.sums[last] - this.sums[first]) / ((last - first) * this.slice);
  }
}

const reader = new Reader();
const isRead = reader.read(find('jobs').textContent);
const { run, executive } = reader;
run.end ??= run.from;
const sets = executive.rows.map((bars, set) => new Row(`SET ${set}`, bars));
const idle = new Row('idle', executive.idle);
const services = new Row('interrupts', run.services.filter((service) => service.to !== null));
const tasks = new Ticks('tasks', reader.waitlist.calls);
const alarms = new Ticks('alarms', run.alarms);
const marks = new Ticks('marks', run.hits);
const stolen = new Stolen(run.slice, run.stolen, run.end);
const view = { from: run.from, to: Math.max(run.end, run.from + 1) };

const GUTTER = 84; // the width of the rows' names
const ROW = 20;
const GRAPH = 64;
const BAND = 40;
const AXIS = 24;
const LABEL_FROM = 26; // the width from which a bar has a label
const COLOURS = { grid: '#2b2f30', text: '#b9bab2', used: '#4f9d69', full: '#ff5f52', idle: '#6f7a80', service: '#c7a544', task: '#8ab4f8', alarm: '#ff4fa3', mark: '#ff8f5a', stolen: '#c06bd0' };

const chart = find('chart');
const pen = chart.getContext('2d');
const top0 = 8 + GRAPH + 8;
const lanes = [...sets, idle, services, tasks, alarms, marks].map((row, i) => ({ row, y: top0 + i * ROW }));
const bandTop = top0 + lanes.length * ROW + 8;
const height = bandTop + BAND + AXIS;
let width = 0;

const scale = () => (width - GUTTER) / (view.to - view.from);
const xOf = (cycle) => GUTTER + (cycle - view.from) * scale();
const cycleAt = (x) => view.from + (x - GUTTER) / scale();

const colours = new Map();

// Returns a colour for a name; names that begin alike differ, too.
function colourOf(name, light) {
  const key = `${light} ${name}`;
  if (!colours.has(key)) {
    let sum = 7;
    for (const sign of name) sum = (sum * 31 + sign.codePointAt(0)) % 360;
    colours.set(key, `hsl(${(sum * 47) % 360} 55% ${light}%)`);
  }
  return colours.get(key);
}

// Returns the colour of a bar of a row.
function barColour(row, bar) {
  if (row === idle) return COLOURS.idle;
  if (row === services) return COLOURS.service;
  const light = row === sets[0] ? 62 : 44;
  return colourOf(bar.job.name, bar.state === 'ASLEEP' ? 24 : light);
}

const labelOf = (bar) => (bar.job ? `${bar.job.name} ${bar.priority}` : bar.name ?? '');

// Draws the bars of a row: those of one pixel and more each, the others by pixels.
function drawBars({ row, y }) {
  let i = countUpTo(row.ends, view.from);
  let rectangles = 0;
  while (i < row.bars.length && row.starts[i] < view.to) {
    const left = Math.max(GUTTER, xOf(row.starts[i]));
    const right = Math.min(width, xOf(row.ends[i]));
    pen.fillStyle = barColour(row, row.bars[i]);
    rectangles += 1;
    if (right - left >= 1) {
      pen.fillRect(left, y + 2, right - left, ROW - 4);
      drawLabel(labelOf(row.bars[i]), left, right, y);
      i += 1;
    } else {
      const column = Math.floor(left);
      const [from, to] = [cycleAt(column), cycleAt(column + 1)];
      pen.globalAlpha = 0.2 + 0.8 * Math.min(1, row.within(from, to) / (to - from));
      pen.fillRect(column, y + 2, 1, ROW - 4);
      pen.globalAlpha = 1;
      i = Math.max(i + 1, countUpTo(row.ends, to));
    }
  }
  return rectangles;
}

function drawLabel(text, left, right, y) {
  if (right - left < LABEL_FROM || !text) return;
  pen.save();
  pen.beginPath();
  pen.rect(left, y, right - left - 2, ROW);
  pen.clip();
  pen.fillStyle = '#0b0e0b';
  pen.fillText(text, left + 3, y + ROW / 2);
  pen.restore();
}

// Draws the ticks of a row from a height on, of those in one pixel the first, and the names that have room.
function drawTicks({ row, y }, colour, from) {
  pen.fillStyle = colour;
  for (let i = countUpTo(row.cycles, view.from - 1); i < row.ticks.length && row.cycles[i] <= view.to;) {
    const x = xOf(row.cycles[i]);
    const next = Math.max(i + 1, countUpTo(row.cycles, cycleAt(Math.floor(x) + 1) - 1e-6));
    const room = (next < row.ticks.length ? xOf(row.cycles[next]) : width) - x - 6;
    pen.fillRect(x, from, 1, y + ROW - 2 - from);
    if (next === i + 1 && room > LABEL_FROM && pen.measureText(row.ticks[i].name).width < room) pen.fillText(row.ticks[i].name, x + 3, y + ROW / 2);
    i = next;
  }
}

// Draws how many core sets are in use: in each pixel the most; and where all are.
function drawUsed() {
  const { cycles, counts } = executive.used;
  const full = [];
  pen.fillStyle = COLOURS.used;
  const unit = GRAPH / Math.max(1, sets.length);
  for (let x = GUTTER; x < width; x += 1) {
    let i = countUpTo(cycles, cycleAt(x)) - 1;
    let most = i < 0 ? 0 : counts[i];
    const to = cycleAt(x + 1);
    for (i += 1; i < cycles.length && cycles[i] < to; i += 1) most = Math.max(most, counts[i]);
    if (most === sets.length && most > 0) full.push(x);
    pen.fillRect(x, 8 + GRAPH - most * unit, 1, most * unit);
  }
  pen.fillStyle = COLOURS.full;
  for (const x of full) pen.fillRect(x - 1, 8, 3, GRAPH);
}

// Draws the share of stolen cycles, in the height of the band.
function drawStolen() {
  pen.fillStyle = COLOURS.stolen;
  const most = Math.max(stolen.most, 0.001);
  for (let x = GUTTER; x < width; x += 1) {
    const from = cycleAt(x);
    if (from >= run.end || from < run.from) continue;
    const high = (stolen.share(from, Math.min(cycleAt(x + 1), run.end)) / most) * BAND;
    pen.fillRect(x, bandTop + BAND - high, 1, high);
  }
}

// Draws the seconds below the rows.
function drawAxis() {
  const seconds = (view.to - view.from) / CYCLES_A_SECOND;
  const rough = seconds / Math.max(2, (width - GUTTER) / 110);
  const ten = 10 ** Math.floor(Math.log10(rough));
  const step = [1, 2, 5, 10].map((each) => each * ten).find((each) => each >= rough);
  const digits = Math.max(0, -Math.floor(Math.log10(step) + 1e-9));
  for (let k = Math.ceil(view.from / CYCLES_A_SECOND / step); k * step * CYCLES_A_SECOND <= view.to; k += 1) {
    const x = xOf(k * step * CYCLES_A_SECOND);
    pen.fillStyle = COLOURS.grid;
    pen.fillRect(x, 8, 1, bandTop + BAND - 8);
    pen.fillStyle = COLOURS.text;
    pen.fillText(`${(k * step).toFixed(digits)} s`, x + 3, bandTop + BAND + AXIS / 2);
  }
}

// Draws the names of the rows over what lies left of them.
function drawNames() {
  pen.clearRect(0, 0, GUTTER - 1, height);
  pen.fillStyle = COLOURS.text;
  pen.fillText(`${sets.length} in use`, 6, 8 + 7);
  pen.fillText('core sets 0', 6, 8 + GRAPH - 6);
  for (const { row, y } of lanes) pen.fillText(row === sets[0] ? 'SET 0, runs' : row.name, 6, y + ROW / 2);
  pen.fillText(`${(100 * stolen.most).toFixed(1)} %`, 6, bandTop + 7);
  pen.fillText('stolen', 6, bandTop + BAND - 6);
}

// Draws what is in view.
function draw() {
  const began = performance.now();
  const ratio = window.devicePixelRatio || 1;
  width = chart.clientWidth;
  chart.style.height = `${height}px`;
  chart.width = width * ratio;
  chart.height = height * ratio;
  pen.scale(ratio, ratio);
  pen.font = '11px ui-monospace, monospace';
  pen.textBaseline = 'middle';
  drawAxis();
  let rectangles = 0;
  for (const lane of lanes) {
    if (lane.row === tasks) drawTicks(lane, COLOURS.task, lane.y + 2);
    else if (lane.row === alarms) drawTicks(lane, COLOURS.alarm, 8);
    else if (lane.row === marks) drawTicks(lane, COLOURS.mark, 8);
    else rectangles += drawBars(lane);
  }
  drawUsed();
  drawStolen();
  drawNames();
  const at = (cycle) => `${(cycle / CYCLES_A_SECOND).toFixed(3)} s`;
  find('clock').textContent = `${at(view.from)} to ${at(view.to)} of ${at(run.end)}, cycles ${Math.floor(view.from)} to ${Math.floor(view.to)}`;
  Object.assign(document.body.dataset, { from: view.from, to: view.to, rectangles, drawn: performance.now() - began });
}

const SHORTEST = 40; // cycles in view
const AROUND_ALARM = 85333; // cycles that the button of an alarm shows: a second
const MOST_LISTED = 50; // alarms that have a button
const STILL = 4; // points that the pointer may move in a click

let isAwaited = false; // whether a drawing is due with the next frame of the browser
let dragged = null;

// Shows a part of the run, as near as it can be.
function show(from, length) {
  const most = Math.max(1, run.end - run.from);
  const size = Math.min(Math.max(length, Math.min(SHORTEST, most)), most);
  view.from = Math.min(Math.max(from, run.from), run.from + most - size);
  view.to = view.from + size;
  if (isAwaited) return;
  isAwaited = true;
  requestAnimationFrame(() => {
    isAwaited = false;
    draw();
  });
}

// Zooms by a factor, and keeps the cycle at a place of the chart where it is.
function zoom(factor, x) {
  const length = (view.to - view.from) * factor;
  const share = Math.min(Math.max((x - GUTTER) / (width - GUTTER), 0), 1);
  show(cycleAt(GUTTER + share * (width - GUTTER)) - share * length, length);
}

const middle = () => GUTTER + (width - GUTTER) / 2;
const move = (share) => show(view.from + share * (view.to - view.from), view.to - view.from);

const ACTIONS = {
  left: () => move(-0.25),
  right: () => move(0.25),
  in: () => zoom(0.5, middle()),
  out: () => zoom(2, middle()),
  all: () => show(run.from, run.end - run.from),
};
const SHORTCUTS = { ArrowLeft: 'left', ArrowRight: 'right', '+': 'in', '=': 'in', '-': 'out', Home: 'all' };

function onKey(event) {
  const name = SHORTCUTS[event.key];
  if (!name || event.ctrlKey || event.altKey || event.metaKey) return;
  event.preventDefault();
  ACTIONS[name]();
}

function onWheel(event) {
  event.preventDefault();
  if (Math.abs(event.deltaX) > Math.abs(event.deltaY)) move(event.deltaX / (width - GUTTER));
  else zoom(1.0015 ** event.deltaY, event.offsetX);
}

// Returns how long something takes, in words.
function spanOf(from, to) {
  return `cycles ${from} to ${to}: ${to - from} cycles, ${((to - from) * 1000 / CYCLES_A_SECOND).toFixed(3)} ms`;
}

// Returns what a bar is, a line for each fact.
function aboutBar(row, bar) {
  const lines = [];
  if (row === services) {
    lines.push(`${bar.name}: an interrupt`);
  } else if (row === idle) {
    lines.push('idle: set 0 holds no job that may run');
  } else {
    lines.push(`${row.name}: ${bar.job.name} (number ${bar.job.number} of this name), priority ${bar.priority}, ${bar.state.toLowerCase()}`);
    const ends = isSame(bar.place, bar.then) ? '' : `, at the end ${placeOf(bar.then)}`;
    lines.push(`LOC ${placeOf(bar.place)}${ends}`);
  }
  lines.push(`from ${spanOf(bar.from, bar.to)}`);
  if (row === sets[0] || row === idle) lines.push(`of these ${services.within(bar.from, bar.to)} cycles in interrupts`);
  return lines.join(LINE);
}

const placeOf = ({ loc, bankset, name }) => (name.startsWith(loc) ? name : `${loc} ${bankset} ${name}`);

// What a tick of a row is.
const TICKS = new Map([[tasks, 'a task that T3RUPT calls'], [alarms, 'an alarm: the PROG lamp goes on'], [marks, 'a marked order']]);

// Returns the tick at a place of the chart, or nothing.
function tickAt(x, y) {
  const lane = lanes[Math.floor((y - top0) / ROW)];
  return lane?.row instanceof Ticks ? lane.row.near(cycleAt(x), 5 / scale()) : null;
}

// Returns what is at a place of the chart, or nothing.
function aboutPlace(x, y) {
  const cycle = cycleAt(x);
  if (x < GUTTER) return '';
  if (y < top0) {
    const { cycles, counts } = executive.used;
    return `cycle ${Math.floor(cycle)}: ${counts[countUpTo(cycles, cycle) - 1] ?? 0} of ${sets.length} core sets in use`;
  }
  const lane = lanes[Math.floor((y - top0) / ROW)];
  if (!lane) {
    const share = stolen.share(cycle, Math.min(cycle + 1, run.end));
    return y < bandTop ? '' : `cycle ${Math.floor(cycle)}: counters take ${(100 * share).toFixed(1)} of 100 cycles, in a slice of ${run.slice} cycles`;
  }
  if (lane.row instanceof Ticks) {
    const tick = tickAt(x, y);
    return tick ? `${tick.name}: ${TICKS.get(lane.row)}${LINE}at cycle ${tick.cycle}, ${(tick.cycle / CYCLES_A_SECOND).toFixed(6)} s` : '';
  }
  const bar = lane.row.at(cycle) ?? lane.row.at(cycleAt(x + 1));
  return bar ? aboutBar(lane.row, bar) : '';
}

function onMove(event) {
  if (dragged) show(dragged.from - (event.offsetX - dragged.x) / dragged.scale, view.to - view.from);
  else find('about').textContent = aboutPlace(event.offsetX, event.offsetY) || 'Point at a bar.';
}

function onDown(event) {
  dragged = { x: event.offsetX, y: event.offsetY, from: view.from, scale: scale() };
  chart.setPointerCapture(event.pointerId);
  chart.classList.add('dragged');
}

function onUp(event) {
  if (dragged && event.type === 'pointerup' && Math.hypot(event.offsetX - dragged.x, event.offsetY - dragged.y) < STILL) choose(event.offsetX, event.offsetY);
  dragged = null;
  chart.classList.remove('dragged');
}

// Names the cycle that is clicked to the page that shows the timeline inside, if one does.
function choose(x, y) {
  if (window.parent === window || x < GUTTER) return;
  const cycle = tickAt(x, y)?.cycle ?? Math.round(Math.min(Math.max(cycleAt(x), run.from), run.end));
  window.parent.postMessage({ timeline: 'cycle', cycle }, '*');
}

// Fills the table of the jobs by name, those first that had the processor most.
function fillTable() {
  for (const bar of executive.rows[0] ?? []) executive.names.get(bar.job.name).cycles += bar.to - bar.from - services.within(bar.from, bar.to);
  const length = Math.max(1, run.end - run.from);
  const all = [...executive.names].sort(([, one], [, other]) => other.cycles - one.cycles);
  for (const [name, { started, most, cycles }] of all.slice(0, 200)) {
    const line = document.createElement('tr');
    for (const text of [name, started, most, cycles, `${(100 * cycles / length).toFixed(1)} %`]) {
      line.append(Object.assign(document.createElement('td'), { textContent: text }));
    }
    find('jobs-table').append(line);
  }
}

// Lists the alarms, each with a button that shows the run around it.
function listAlarms() {
  if (!run.alarms.length) return;
  const { alarms: all } = run;
  const rest = all.length > MOST_LISTED ? `, and ${all.length - MOST_LISTED} more` : '';
  find('alarms').append('Alarms, at which the PROG lamp goes on: ', ...all.slice(0, MOST_LISTED).map(({ cycle }) => {
    const text = `${(cycle / CYCLES_A_SECOND).toFixed(3)} s, cycle ${cycle}`;
    const button = Object.assign(document.createElement('button'), { textContent: text });
    button.addEventListener('click', () => show(cycle - AROUND_ALARM / 2, AROUND_ALARM));
    return button;
  }), rest);
}

// '#from=5100000&to=5330000' shows these cycles; another text is ignored.
function followHash() {
  const asked = new URLSearchParams(location.hash.slice(1));
  const [from, to] = ['from', 'to'].map((name) => (/^[0-9]+$/.test(asked.get(name) ?? '') ? Number(asked.get(name)) : NaN));
  if (from < to) show(from, to - from);
}

function start() {
  find('title').textContent = `Executive timeline, limit ${run.limit}`;
  document.title = `${run.rope}, ${run.script}; limit ${run.limit}`;
  for (const [name, action] of Object.entries(ACTIONS)) find(name).addEventListener('click', action);
  document.addEventListener('keydown', onKey);
  chart.addEventListener('wheel', onWheel, { passive: false });
  chart.addEventListener('pointerdown', onDown);
  chart.addEventListener('pointermove', onMove);
  for (const kind of ['pointerup', 'pointercancel']) chart.addEventListener(kind, onUp);
  window.addEventListener('resize', draw);
  window.addEventListener('hashchange', followHash);
  document.body.classList.toggle('framed', window.parent !== window);
  fillTable();
  listAlarms();
  draw();
  followHash();
}

if (isRead) {
  start();
} else {
  find('trouble').textContent = 'This timeline cannot be read: the file is cut off, or the browser cannot hold it. A timeline of a part, by --from and --to, is shorter.';
  find('page').hidden = true;
}
</script>
</body>
</html>
";
