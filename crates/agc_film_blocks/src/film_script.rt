//! The script that shows the display in words on the page of a film.

/// The script with its style, from `clients/python/agc_web/page/film/words.html`.
pub const WORDS: &str = "<style>
.in-words { min-height: 42px; margin: 8px 4px 0; font-variant-numeric: tabular-nums; }
</style>
<script>
(() => {
'use strict';

const PART = /^(R[123]) (.+?) = (octal|min sec|(\\d{1,9})(?:\\.(\\d{1,9}))?(?: (\\S{1,16}))?)$/;

const nouns = { verbs: new Map(), nouns: new Map() };

function readNouns(text) {
  const found = { verbs: new Map(), nouns: new Map(), faults: [] };
  text.split(/\\r?\\n/).forEach((line, i) => {
    const [, kind, number, rest = ''] = line.split('#')[0].trim().replace(/\\s+/g, ' ').match(/^(\\S+)(?: (\\S+))?(?: (.*))?$/) || [];
    if (kind === undefined) return;
    const fault = faultOf(found, kind, number, rest);
    if (fault) found.faults.push(`line ${i + 1}: ${fault}`);
  });
  return found;
}

function faultOf(found, kind, number, rest) {
  if (kind !== 'verb' && kind !== 'noun') return `unknown word ${kind}: verb or noun`;
  if (!/^\\d\\d$/.test(number)) return `a ${kind} has two digits`;
  if (found[`${kind}s`].has(number)) return `${kind} ${number} has a line already`;
  if (!rest) return `${kind} ${number} has no meaning`;
  const parts = kind === 'noun' ? rest.split(/, ?/).map((part) => part.match(PART)) : [];
  if (parts.includes(null)) return 'each part of a noun is R1 NAME = WORTH UNIT, or = octal, or = min sec';
  found[`${kind}s`].set(number, kind === 'verb' ? rest : parts.map(([, register, name, worth, whole, part = '', unit = '']) => (
    { register, name, isTime: worth === 'min sec', factor: BigInt(whole === undefined ? 1 : whole + part), places: part.length, unit })));
  return '';
}

function amountShown(signs, { isTime, factor, places, unit }) {
  if (isTime) {
    const [, before, minutes, seconds] = signs.match(/^([+_-])(\\d\\d)_(\\d\\d)$/) || [];
    return seconds === undefined ? '\u{2013}' : `${before === '-' ? '-' : ''}${Number(minutes)} min ${Number(seconds)} s`;
  }
  const [, sign, digits] = signs.match(/^([+_-])(\\d{5})$/) || [];
  if (digits === undefined || (sign === '_' && /[89]/.test(digits))) return '\u{2013}';
  if (sign === '_') return `${digits} octal`;
  const text = String(BigInt(digits) * factor).padStart(places + 1, '0');
  const point = text.length - places;
  return `${sign === '-' ? '-' : ''}${text.slice(0, point)}${places ? `.${text.slice(point)}` : ''} ${unit}`.trim();
}

function panelInWords(panel) {
  if (!/^\\d\\d$/.test(panel.VERB)) return '';
  const hasNoun = /^\\d\\d$/.test(panel.NOUN);
  const parts = (hasNoun && nouns.nouns.get(panel.NOUN)) || [];
  const said = parts.filter(({ register }) => panel[register] !== '______').map((part) => `${part.name} ${amountShown(panel[part.register], part)}`);
  return [`V${panel.VERB}${hasNoun ? ` N${panel.NOUN}` : ''}`, nouns.verbs.get(panel.VERB), said.join(', ')].filter(Boolean).join(': ');
}

function keepNouns(about) {
  const { faults, ...found } = readNouns(about.nouns ?? '');
  Object.assign(nouns, found);
  find('in-words').hidden = !about.nouns;
  setText(find('in-words-fault'), faults.length ? `The file of nouns, ${faults[0]}.${faults.length > 1 ? ` ${faults.length - 1} more.` : ''}` : '');
  if (shown.panel) sayPanel(shown.panel);
}

function sayPanel(panel) {
  setText(find('in-words-text'), panelInWords(panel));
}

const { faults, ...found } = readNouns(readName(find('nouns').textContent.slice(LINE.length)));
Object.assign(nouns, found);

function lineOf(run) {
  const line = document.createElement('p');
  line.className = 'in-words';
  line.id = `${run.id}-words`;
  run.section.querySelector('.dsky').after(line);
  return line;
}

const said = runs.filter((run) => run.section).map((run) => [run, lineOf(run)]);

function sayPanels() {
  for (const [run, line] of said) {
    const panel = Object.fromEntries(run.text.split(LINE).map((each) => [each.split(' ')[0], each.slice(each.indexOf(' ') + 1)]));
    const text = panelInWords(panel);
    if (line.textContent !== text) line.textContent = text;
  }
}

if (faults.length) {
  find('trouble').textContent += ` The file of nouns, ${faults[0]}.${faults.length > 1 ? ` ${faults.length - 1} more.` : ''}`;
} else {
  new MutationObserver(sayPanels).observe(document.body, { attributes: true, attributeFilter: ['data-cycle'] });
  sayPanels();
}
})();
</script>
";
