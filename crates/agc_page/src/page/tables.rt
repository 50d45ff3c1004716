//! The Executive's tables on the page, beside each run's DSKY.

/// The script that shows the tables. It follows the cycle that the script of the DSKY sets on the page.
pub const TABLES: &str = "<script>
'use strict';
(() => {
  const LINE = String.fromCharCode(10);
  const KEYFRAME_EVERY = 1024; // of so many changes one has all lines

  const nameOf = (words) => (words[0] === 'LST1' ? words[0] : words.slice(0, 2).join(' '));

  function readTables(text) {
    const tables = { cycles: [], changes: [], keyframes: [] };
    const shown = new Map();
    for (const told of text.split(LINE).filter(Boolean)) {
      const [cycle, ...words] = told.split(' ');
      if (tables.cycles.at(-1) !== Number(cycle)) {
        if (tables.cycles.length % KEYFRAME_EVERY === 0) tables.keyframes.push([...shown]);
        tables.cycles.push(Number(cycle));
        tables.changes.push([]);
      }
      const line = [nameOf(words), words.join(' ')];
      tables.changes.at(-1).push(line);
      shown.set(line[0], line[1]);
    }
    return tables;
  }

  function placeOf(tables, cycle) {
    let low = 0;
    let high = tables.cycles.length;
    while (low < high) {
      const middle = (low + high) >> 1;
      if (tables.cycles[middle] <= cycle) low = middle + 1; else high = middle;
    }
    return low - 1;
  }

  function textAt(tables, cycle) {
    const place = placeOf(tables, cycle);
    if (place < 0) return '';
    const first = place - (place % KEYFRAME_EVERY);
    const shown = new Map(tables.keyframes[first / KEYFRAME_EVERY]);
    for (let i = first; i <= place; i += 1) tables.changes[i].forEach(([name, line]) => shown.set(name, line));
    return [...shown.values(), ''].join(LINE);
  }

  const STYLE = `
@media (min-width: 1100px) {
  .run.watched:only-child { display: grid; grid-template-columns: 460px minmax(0, 1fr); gap: 0 24px; align-items: start; width: 100%; }
  .run.watched:only-child > * { grid-column: 1; }
  .run.watched:only-child > .watch { grid-column: 2; grid-row: 1 / span 4; margin-top: 28px; }
}
.watch { margin: 10px 0 0; padding: 8px 12px; border-radius: 6px; background: #212425; font: 12px/1.4 ui-monospace, monospace; white-space: pre-wrap; }
`;

  document.addEventListener('DOMContentLoaded', () => {
    document.head.append(Object.assign(document.createElement('style'), { textContent: STYLE }));
    const shows = [];
    for (const name of ['left', 'right']) {
      const block = document.getElementById(name + '-tables');
      const panel = document.getElementById(name + '-panel');
      if (block && panel) {
        const tables = readTables(block.textContent);
        const shown = document.createElement('pre');
        shown.id = name + '-watch';
        shown.setAttribute('aria-label', 'The tables of the Executive');
        shown.className = 'watch';
        panel.closest('.run').classList.add('watched');
        panel.closest('.run').append(shown);
        shows.push((cycle) => { shown.textContent = textAt(tables, cycle); });
      }
    }
    const follow = () => shows.forEach((show) => show(Number(document.body.dataset.cycle)));
    new MutationObserver(follow).observe(document.body, { attributes: true, attributeFilter: ['data-cycle'] });
    follow();
  });
})();
</script>
";
