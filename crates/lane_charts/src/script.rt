//! The script and the styles of a page. The script only shows: it computes no rule of firing.

ghost use Rattle.std.specs.Prelude.{◌≡◌};
ghost use Rattle.lane_charts.specs.Sections.{script_text, sheet_text};

/// How the page around the pictures looks.
#[tactic(auto, unfolding(crate::specs::Sections::sheet_text))]
pub fn page_sheet() -> &'static str
    ensures { result.now ≡ sheet_text }
{
    PAGE_SHEET
}

/// Steps through the runs of a page: by buttons, by a slider, by keys, or to the step that stands behind # in the address.
#[tactic(auto, unfolding(crate::specs::Sections::script_text))]
pub fn script() -> &'static str
    ensures { result.now ≡ script_text }
{
    SCRIPT
}

const PAGE_SHEET: &str = "<style>
body{font:14px sans-serif;margin:16px;background:#fff;color:#1f2328}h2{font-size:16px;margin:8px 0}.runs{display:flex;gap:24px;align-items:flex-start}
.run{flex:1;min-width:0}.scroll{overflow:auto;max-height:80vh;border:1px solid #d0d7de;margin:8px 0}.scroll svg{display:block}
.bar-of-steps{position:sticky;top:0;background:#fff;padding:6px 0;z-index:1}.bar-of-steps input{width:30%;vertical-align:middle}
.printed{font:13px monospace;background:#f6f8fa;padding:8px;min-height:1em}.token{fill:#ffd33d;stroke:#1f2328;pointer-events:none}
.now rect,.now .mark{stroke:#d1242f;stroke-width:3}.later rect{fill-opacity:.25}[hidden]{display:none}
@media (prefers-color-scheme:dark){body,.bar-of-steps{background:#0d1117;color:#e6edf3}.printed{background:#161b22}}
</style>
";

const SCRIPT: &str = "<script>
'use strict';
const runs = [...document.querySelectorAll('.run')].map(run => {
  const data = JSON.parse(run.querySelector('script').textContent);
  const one = name => run.querySelector(name);
  const all = name => [...run.querySelectorAll(name)];
  const chart = one('.lanes'), slider = one('input'), told = one('.told');
  const printed = all('.printed span'), marks = new Map(), cells = all('.rounds .cell');
  for (const mark of all('.lanes g[data-node]')) {
    const at = mark.querySelector('.mark').getBBox();
    const place = {line: mark.dataset.line, x: at.x + at.width / 2, y: at.y + at.height / 2, mark};
    marks.set(mark.dataset.node, [...(marks.get(mark.dataset.node) || []), place]);
  }
  const tokens = new Map();
  for (const place of [...marks.values()].flat()) {
    if (tokens.has(place.line)) continue;
    const token = document.createElementNS('http://www.w3.org/2000/svg', 'circle');
    token.setAttribute('class', 'token');
    token.setAttribute('r', 5);
    chart.append(token);
    tokens.set(place.line, {token, x: place.x, top: 56});
  }
  let step = 0;
  const show = to => {
    step = Math.max(0, Math.min(data.nodes.length, to));
    slider.value = step;
    const at = new Map();
    for (const node of data.nodes.slice(0, step))
      for (const place of marks.get(String(node)) || []) at.set(place.line, place);
    for (const [line, {token, x, top}] of tokens) {
      const place = at.get(line) || {x, y: top};
      token.setAttribute('cx', place.x);
      token.setAttribute('cy', place.y);
    }
    const last = step > 0 ? String(data.nodes[step - 1]) : '';
    for (const [node, places] of marks) for (const {mark} of places) mark.classList.toggle('now', node === last);
    for (const cell of cells) {
      const firing = Number(cell.dataset.firing);
      cell.classList.toggle('later', firing >= step);
      cell.classList.toggle('now', firing === step - 1);
    }
    const lines = step > 0 ? data.printed[step - 1] : 0;
    printed.forEach((line, k) => { line.hidden = k >= lines; });
    told.textContent = `firing ${step} of ${data.nodes.length}`;
  };
  slider.addEventListener('input', () => show(Number(slider.value)));
  for (const button of all('button')) button.addEventListener('click', () => show(step + Number(button.dataset.by)));
  const light = (event, on) => {
    const found = event.target.closest('[data-node]');
    if (found) all(`[data-node='${found.dataset.node}']`).forEach(other => other.classList.toggle('on', on));
  };
  run.addEventListener('pointerover', event => light(event, true));
  run.addEventListener('pointerout', event => light(event, false));
  return {show, by: n => show(step + n), end: data.nodes.length};
});
let playing = null;
const stop = () => { clearInterval(playing); playing = null; };
const play = () => { playing = setInterval(() => runs.forEach(run => run.by(1)), 200); };
const keys = {
  ArrowRight: run => run.by(1), ArrowLeft: run => run.by(-1), ArrowDown: run => run.by(10), ArrowUp: run => run.by(-10),
  Home: run => run.show(0), End: run => run.show(run.end),
};
document.addEventListener('keydown', event => {
  if (event.key === ' ') { if (playing) stop(); else play(); event.preventDefault(); }
  if (keys[event.key]) { stop(); runs.forEach(keys[event.key]); event.preventDefault(); }
});
const begin = () => runs.forEach(run => run.show(location.hash === '#end' ? run.end : Number(location.hash.slice(1)) || 0));
addEventListener('hashchange', begin);
begin();
</script>
";
