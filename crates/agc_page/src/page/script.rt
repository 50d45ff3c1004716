//! The page after its runs: the script that reads them and shows them over time.

/// The text after the runs.
pub const TAIL: &str = "<script>
'use strict';
const CYCLES_A_SECOND = 1024000 / 12;
const LINE = String.fromCharCode(10);
const BACKSLASH = String.fromCharCode(92);
const KEPT_EVERY = 1024; // before so many writes the words of the panel are kept

const LAMPS = 'UPLINK ACTY,TEMP,NO ATT,GIMBAL LOCK,,PROG,KEY REL,,OPR ERR,TRACKER,,ALT,ISS,VEL'.split(',');

const KEYS = [[2, 'VERB NOUN'], [1, '+ - 0'], [1, '7 4 1'], [1, '8 5 2'], [1, '9 6 3'], [1, 'CLR PRO KEYREL'], [2, 'ENTR RSET']];

const SEGMENTS = {
  a: '6,3 30,3 25,9 11,9',
  b: '32,5 32,28 29,30 26,27 26,11',
  c: '32,55 32,32 29,30 26,33 26,49',
  d: '6,57 30,57 25,51 11,51',
  e: '4,55 4,32 7,30 10,33 10,49',
  f: '4,5 4,28 7,30 10,27 10,11',
  g: '8,30 11,27 25,27 28,30 25,33 11,33',
};
const DIGITS = { 0: 'abcdef', 1: 'bc', 2: 'abdeg', 3: 'abcdg', 4: 'bcfg', 5: 'acdfg', 6: 'acdefg', 7: 'abc', 8: 'abcdefg', 9: 'abcdfg', '?': 'abeg' };
const SIGN_BARS = { g: '5,27 31,27 31,33 5,33', v: '15,14 21,14 21,26 15,26', w: '15,34 21,34 21,46 15,46' };
const SIGNS = { '+': 'gvw', '-': 'g' };

const ROWS = 13;
const WORD_SIZE = 2 ** 15;

const DIGIT_LINES = [['PROG', 0, '11L 11R'], ['VERB', 0, '10L 10R'], ['NOUN', 0, '9L 9R'],
  ['R1', 7, '8R 7L 7R 6L 6R'], ['R2', 5, '5L 5R 4L 4R 3L'], ['R3', 2, '3R 2L 2R 1L 1R']]
  .map(([name, plus, digits]) => [name, plus, digits.split(' ').map((digit) => [parseInt(digit, 10), digit.endsWith('L') ? 5 : 0])]);
const CODES = [0o25, 0o03, 0o31, 0o33, 0o17, 0o36, 0o34, 0o23, 0o35, 0o37]; // of the digits 0 to 9

const LAMP_BITS = [['COMP ACTY', 0, 2], ['UPLINK ACTY', 0, 3], ['NO ATT', 12, 4], ['TEMP', 0, 4], ['GIMBAL LOCK', 12, 6], ['PROG', 12, 9],
  ['KEY REL', 0, 5], ['OPR ERR', 0, 7], ['TRACKER', 12, 8], ['ALT', 12, 5], ['VEL', 12, 3], ['ISS', 0, 1]];
const FLASH_BIT = 6;

function wordOf(channel, word) {
  const row = channel === 0o11 ? 0 : (channel === 0o10 && word >> 11) || ROWS;
  return row * WORD_SIZE + word;
}

function putWord(words, word) {
  words[Math.floor(word / WORD_SIZE)] = word % WORD_SIZE;
}

function digitOf(code) {
  const digit = CODES.indexOf(code);
  return code === 0 ? '_' : digit < 0 ? '?' : String(digit);
}

function textOf(words) {
  const isOn = (row, bit) => (words[row] >> (bit - 1)) % 2 === 1;
  const signOf = (plus) => (plus === 0 ? '' : isOn(plus, 11) ? '+' : isOn(plus - 1, 11) ? '-' : '_');
  const lines = DIGIT_LINES.map(([name, plus, digits]) => `${name} ${signOf(plus)}${digits.map(([row, shift]) => digitOf((words[row] >> shift) % 32)).join('')}`);
  const lit = LAMP_BITS.filter(([, row, bit]) => isOn(row, bit)).map(([name]) => name);
  return [...lines, `FLASH ${isOn(0, FLASH_BIT) ? 'on' : 'off'}`, `LAMPS ${lit.join(', ') || 'none'}`, ''].join(LINE);
}

const find = (id) => document.getElementById(id);

function readName(text) {
  const bytes = [];
  for (let i = 0; i < text.length; i += 1) {
    const coded = text[i] === BACKSLASH;
    bytes.push(coded ? parseInt(text.slice(i + 1, i + 4), 8) : text.charCodeAt(i));
    if (coded) i += 3;
  }
  return new TextDecoder().decode(Uint8Array.from(bytes));
}

function readKey(cycle, name, before) {
  return { cycle, name, held: name.startsWith('PRO') ? name === 'PRO' : Boolean(before && before.held) };
}

function readWrite(run, line) {
  const [cycle, channel, word] = line.split(' ');
  if (run.cycles.length % KEPT_EVERY === 0) run.kept.push([...run.shown]);
  run.cycles.push(Number(cycle));
  run.words.push(wordOf(parseInt(channel, 8), parseInt(word, 8)));
  putWord(run.shown, run.words.at(-1));
}

function panelOf(run, place) {
  const first = place - (place % KEPT_EVERY);
  const words = place < 0 ? new Array(ROWS).fill(0) : [...run.kept[first / KEPT_EVERY]];
  for (let one = Math.max(first, 0); one <= place; one += 1) putWord(words, run.words[one]);
  return textOf(words);
}

function readLine(run, line) {
  const [word, number, ...rest] = line.split(' ');
  if (word === 'key') {
    run.keyCycles.push(Number(number));
    run.keys.push(readKey(Number(number), rest.join(' '), run.keys.at(-1)));
  } else if (word === 'stop' || word === 'to') {
    run.stop = Number(number);
    run.reason = rest.join(' ');
    run.ended = true;
  } else if (word === 'from') {
    run.from = Number(number);
  } else if (word === 'limit') {
    run.limit = number;
  } else if (word === 'rope' || word === 'script') {
    run[word] = readName(line.slice(word.length + 1));
  }
}

function readRun(id) {
  const run = { id, cycles: [], words: [], kept: [], shown: new Array(ROWS).fill(0), keys: [], keyCycles: [], from: 0, stop: 0, reason: '', ended: false };
  for (const part of document.querySelectorAll(`#${id}, script.${id}`)) {
    for (const line of part.textContent.split(LINE)) (/^[0-9]/.test(line) ? readWrite : readLine)(run, line);
  }
  return run;
}

const runs = ['left', 'right'].filter(find).map(readRun);
const begin = Math.max(...runs.map((run) => run.from));
const end = Math.max(begin, ...runs.map((run) => run.stop));
const parting = find('parting') ? Number(find('parting').textContent) : NaN;
let now = begin;
let playing = false;

function lastUpTo(cycles, cycle) {
  let low = 0;
  let high = cycles.length;
  while (low < high) {
    const middle = (low + high) >> 1;
    if (cycles[middle] <= cycle) low = middle + 1; else high = middle;
  }
  return low - 1;
}

const changeBefore = (cycle) => Math.max(begin, ...runs.map((run) => run.cycles[lastUpTo(run.cycles, Math.ceil(cycle) - 1)] ?? begin));
const changeAfter = (cycle) => Math.min(end, ...runs.map((run) => run.cycles[lastUpTo(run.cycles, cycle) + 1] ?? end));

function places(name, count, kind) {
  const bars = (shapes) => Object.entries(shapes).map(([bar, points]) => `<polygon data-bar='${bar}' points='${points}'/>`).join('');
  const place = (i) => `<svg viewBox='0 0 36 60'>${bars(count === 6 && i === 0 ? SIGN_BARS : SEGMENTS)}</svg>`;
  return `<div class='digits ${kind}' data-name='${name}'>${[...Array(count).keys()].map(place).join('')}</div>`;
}

function keyPad() {
  const key = (name, column, row) => {
    const words = name.replace('KEYREL', 'KEY<br>REL');
    const kind = name.length === 1 ? 'figure' : '';
    return `<span class='${kind}' data-key='${name}' style='grid-area: ${row} / ${column} / span 2'>${words}</span>`;
  };
  return KEYS.flatMap(([row, names], i) => names.split(' ').map((name, j) => key(name, i + 1, row + 2 * j))).join('');
}

function build(run) {
  const lamps = LAMPS.map((name, i) => `<li class='${i % 2 ? 'caution' : ''}' data-lamp='${name}'>${name}</li>`).join('');
  const pair = (name) => `<div><span class='name'>${name}</span>${places(name, 2, '')}</div>`;
  const registers = ['R1', 'R2', 'R3'].map((name) => places(name, 6, 'register')).join('');
  const display = `<div class='acty' data-lamp='COMP ACTY'>COMP<br>ACTY</div>${pair('PROG')}${pair('VERB')}${pair('NOUN')}${registers}`;
  const section = document.createElement('section');
  section.className = 'run';
  section.innerHTML = `<h2></h2><div class='dsky' aria-hidden='true'><ul class='lamps'>${lamps}</ul><div class='display'>${display}</div><div class='keys'>${keyPad()}</div></div>`
    + `<div class='copy'><pre id='${run.id}-panel' aria-live='polite' aria-label='The panel'></pre><p id='${run.id}-keys'></p></div>`;
  section.querySelector('h2').textContent = (runs.length === 1 ? '' : run.id === 'left' ? 'Left run: ' : 'Right run: ') + files(run);
  section.querySelector('h2').title = files(run);
  find('runs').append(section);
  run.section = section;
}

function files(run) {
  return `${run.rope}, ${run.script}`;
}

function showTitle() {
  find('title').textContent = `DSKY film, limit ${runs[0].limit}`;
  document.title = `${runs.map(files).join('; ')}; limit ${runs[0].limit}`;
}

function showPanel(run, text) {
  if (run.text === text) return;
  run.text = text;
  find(`${run.id}-panel`).textContent = text;
  const fields = Object.fromEntries(text.split(LINE).map((line) => [line.split(' ')[0], line.slice(line.indexOf(' ') + 1)]));
  const lit = fields.LAMPS.split(', ');
  for (const lamp of run.section.querySelectorAll('[data-lamp]')) lamp.classList.toggle('lit', lit.includes(lamp.dataset.lamp));
  for (const field of run.section.querySelectorAll('.digits')) {
    const name = field.dataset.name;
    field.classList.toggle('flash', fields.FLASH === 'on' && (name === 'VERB' || name === 'NOUN'));
    [...field.children].forEach((place, i) => {
      const glyph = fields[name][i];
      const bars = (field.children.length === 6 && i === 0 ? SIGNS : DIGITS)[glyph] || '';
      for (const bar of place.children) bar.classList.toggle('lit', bars.includes(bar.dataset.bar));
    });
  }
}

function showKeys(run) {
  const last = lastUpTo(run.keyCycles, now);
  const key = run.keys[last];
  const hold = (CYCLES_A_SECOND / 4) * Number(find('speed').value);
  const down = new Set();
  if (key && now - key.cycle < hold) down.add(key.name);
  if (key && key.held) down.add('PRO');
  for (const shown of run.section.querySelectorAll('[data-key]')) shown.classList.toggle('down', down.has(shown.dataset.key));
  const past = run.keys.slice(Math.max(0, last - 11), last + 1);
  const stop = run.reason && now >= run.stop ? `${LINE}Stopped: ${run.reason}` : '';
  find(`${run.id}-keys`).textContent = `Keys: ${past.map((one) => one.name).join(' ') || 'none yet'}${stop}`;
}

function showDifference() {
  const [left, right] = runs.map((run) => run.text.split(LINE));
  const names = left.map((line, i) => (line === right[i] ? '' : line.split(' ')[0])).filter(Boolean);
  const first = parting === Math.floor(now) ? ' This is the first difference.' : '';
  find('apart').textContent = names.length ? `\u{2260} The panels differ: ${names.join(', ')}.${first}` : '= The panels show the same.';
}

function show(cycle) {
  now = Math.min(Math.max(cycle, begin), end);
  for (const run of runs) {
    showPanel(run, panelOf(run, lastUpTo(run.cycles, now)));
    showKeys(run);
  }
  if (runs.length === 2) showDifference();
  find('time').value = now;
  const seconds = (at) => (at / CYCLES_A_SECOND).toFixed(3);
  find('clock').textContent = `cycle ${Math.floor(now)} of ${end}, ${seconds(now)} s of ${seconds(end)} s`;
  document.body.dataset.cycle = Math.floor(now);
}

function drawStrip() {
  const strip = find('strip');
  const scale = window.devicePixelRatio || 1;
  const width = strip.clientWidth;
  const lane = 40 / runs.length;
  strip.width = width * scale;
  strip.height = 40 * scale;
  const pen = strip.getContext('2d');
  pen.scale(scale, scale);
  const length = Math.max(1, end - begin);
  const place = (cycle) => 8 + (width - 16) * ((cycle - begin) / length);
  const stroke = (cycle, top, height, wide) => pen.fillRect(place(cycle) - wide / 2, top, wide, height);
  const strokes = (cycles, top) => {
    for (let i = lastUpTo(cycles, begin - 1) + 1; i < cycles.length; i = lastUpTo(cycles, cycles[i] + length / width / 4) + 1) stroke(cycles[i], top, lane / 2 - 3, 1);
  };
  runs.forEach((run, i) => {
    const line = lane * (i + 0.5);
    pen.fillStyle = '#6a6d68';
    pen.fillRect(8, line, Math.max(0, place(run.stop) - 8), 1);
    pen.fillStyle = '#5dff9b';
    strokes(run.cycles, line + 1);
    pen.fillStyle = '#f4f4ee';
    strokes(run.keyCycles, line - lane / 2 + 3);
  });
  if (parting >= 0) {
    pen.fillStyle = '#ffb938';
    stroke(parting, 0, 40, 3);
    pen.font = 'bold 15px sans-serif';
    pen.fillText('\u{2260}', Math.min(place(parting) + 4, width - 14), 13);
  }
}

function setPlaying(on) {
  playing = on && end > begin;
  if (playing && now >= end) show(begin);
  document.body.classList.toggle('playing', playing);
  find('play').textContent = playing ? '\u{275a}\u{275a} Pause' : '\u{25b6} Play';
  for (const run of runs) find(`${run.id}-panel`).setAttribute('aria-live', playing ? 'off' : 'polite');
  if (playing) requestAnimationFrame((from) => requestAnimationFrame((at) => play(from, at)));
}

function play(from, at) {
  if (!playing) return;
  show(now + ((at - from) / 1000) * CYCLES_A_SECOND * Number(find('speed').value));
  if (now >= end) setPlaying(false); else requestAnimationFrame((next) => play(at, next));
}

function go(cycle) {
  setPlaying(false);
  show(cycle);
}

const ACTIONS = {
  start: () => go(begin),
  previous: () => go(changeBefore(now)),
  play: () => setPlaying(!playing),
  next: () => go(changeAfter(now)),
  end: () => go(end),
  difference: () => { if (parting >= 0) go(parting); },
};
const SPEED_KEYS = ['', '', '1', '2', '3', '4']; // those of the speeds, the slowest first
const SPEED_STEPS = { '<': -1, '>': 1 };
const SHORTCUTS = { ' ': 'play', ArrowLeft: 'previous', ArrowRight: 'next', Home: 'start', End: 'end', d: 'difference', D: 'difference' };

function speedOf(key) {
  const step = SPEED_STEPS[key];
  return step ? Math.min(Math.max(find('speed').selectedIndex + step, 0), SPEED_KEYS.length - 1) : SPEED_KEYS.indexOf(key);
}

function onKey(event) {
  const place = speedOf(event.key);
  const name = SHORTCUTS[event.key];
  const onButton = event.target.tagName === 'BUTTON' && event.key === ' ';
  if (onButton || event.target.tagName === 'SELECT' || event.ctrlKey || event.altKey || event.metaKey) return;
  if (name) {
    event.preventDefault();
    ACTIONS[name]();
  } else if (place >= 0) {
    find('speed').selectedIndex = place;
    show(now);
  }
}

function followHash() {
  const asked = new URLSearchParams(location.hash.slice(1));
  if (/^[0-9]+$/.test(asked.get('cycle') ?? '')) go(Number(asked.get('cycle')));
  for (const name of (asked.get('press') || '').split(',').filter(Boolean)) {
    document.body.dispatchEvent(new KeyboardEvent('keydown', { key: name === 'Space' ? ' ' : name, bubbles: true, cancelable: true }));
  }
}

function start() {
  runs.forEach(build);
  showTitle();
  find('time').min = begin;
  find('time').max = end;
  find('time').addEventListener('input', () => go(Number(find('time').value)));
  for (const [name, action] of Object.entries(ACTIONS)) find(name).addEventListener('click', action);
  find('difference').hidden = !(parting >= 0);
  find('speed').addEventListener('change', () => show(now));
  document.addEventListener('keydown', onKey);
  window.addEventListener('resize', drawStrip);
  window.addEventListener('hashchange', followHash);
  show(begin);
  drawStrip();
  followHash();
}

const unread = ['left', 'right'].filter((id) => (id === 'left' || find(id)) && !runs.some((run) => run.id === id && run.ended));
if (unread.length) {
  find('trouble').textContent = `This film cannot be read: the browser finds no end of the run ${unread.join(' and ')}. The file is cut off, or the browser cannot hold it; a film of a part, by --from and --to, is shorter.`;
  find('controls').hidden = true;
} else {
  start();
}
</script>
</body>
</html>
";
