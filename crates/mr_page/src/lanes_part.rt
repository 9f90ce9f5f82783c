//! The script lanes.js of a page. Made by tools/page_parts of tools/page_source: change it there.

/// The text.
pub const LANES: &str = "// ---- signs
const SVG = 'http://www.w3.org/2000/svg';
const svg = (tag, attributes = {}, ...kids) => {
  const node = document.createElementNS(SVG, tag);
  for (const name in attributes) node.setAttribute(name, attributes[name]);
  node.append(...kids);
  return node;
};
const el = (tag, properties = {}, ...kids) => {
  const node = Object.assign(document.createElement(tag), properties);
  node.append(...kids.filter(kid => kid !== null && kid !== undefined && kid !== ''));
  return node;
};
const DISC = 'M-5 0a5 5 0 1 0 10 0a5 5 0 1 0-10 0', FLAG = 'M-5 8V-8H-3.2L8-3.6L-2.6 1V8z', DIAMOND = 'M0-7L7 0L0 7L-7 0z';
const SHAPES = { ring: 'M-4 0a4 4 0 1 0 8 0a4 4 0 1 0-8 0', yes: DISC, rec: DISC, win: DISC, no: DISC, commit: DIAMOND, part: DIAMOND,
  x: 'M-5-5L5 5M5-5L-5 5', job: 'M-5-5H5V5H-5z', up: 'M0-6L6 5H-6z', told: FLAG, fail: FLAG, small: 'M-3 0a3 3 0 1 0 6 0a3 3 0 1 0-6 0',
  star: 'M0-9L2.4-3L8.6-2.8L3.7 1.1L5.4 7.2L0 3.7L-5.4 7.2L-3.7 1.1L-8.6-2.8L-2.4-3z' };
const signAt = (kind, x, y) => svg('path', { d: SHAPES[kind], class: 'sign s-' + kind,
  transform: `translate(${x} ${y}) scale(${innerWidth < 600 ? .8 : 1})` });
const icon = kind => {
  const node = svg('svg', { width: 18, height: 18, viewBox: '-9 -9 18 18', 'aria-hidden': true });
  if (kind) node.append(signAt(kind, 0, 0));
  return node;
};

// ---- lanes: of each node, of the attempts where something happened, of masters and stores
const SHOWN = 14, ORDINARY = 4;
const byTask = {};
for (const f of fates) (byTask[f.a.task] ??= []).push(f);
const isOdd = f => byTask[f.a.task].length > 1 || f.fate !== 'won';
const odd = fates.filter(isOdd).slice(0, SHOWN), calm = fates.filter(f => !isOdd(f));
const own = odd.concat(calm.slice(0, Math.max(0, ORDINARY - odd.length))).sort((f, g) => f.a.task - g.a.task || f.a.number - g.a.number);
const mapAttempts = Object.values(attempts).filter(a => a.map), mapTasks = new Set(mapAttempts.map(a => a.task)).size;
const lanes = [];
for (let n = 0; n < Math.min(last.nodes, 4); n++) lanes.push({ id: 'node ' + n, name: 'node ' + n });
if (mapTasks) lanes.push({ id: 'maps', name: count(mapTasks, 'map'), sub: mapAttempts.length > mapTasks ? count(mapAttempts.length, 'attempt') : '' });
for (const { a } of own) lanes.push({ id: a.id, attempt: a.id, name: 'reduce ' + a.task, sub: 'attempt ' + a.number });
if (fates.length > own.length) lanes.push({ id: 'rest', name: count(fates.length - own.length, 'other'), sub: 'attempts' });
for (const k of Object.keys(masters).slice(-6)) lanes.push({ id: k, name: k });
lanes.push({ id: 'history', name: 'history' }, { id: 'store', name: 'store', sub: '/out' }, { id: 'net', name: 'network', sub: 'under way' });
const laneAt = Object.fromEntries(lanes.map((lane, i) => [lane.id, i]));
const laneOf = who => {
  const name = ATTEMPT.test(who) ? who : attemptOf(who);
  return laneAt[name || who] ?? (name ? laneAt[parts(name).map ? 'maps' : 'rest'] : undefined);
};
const touches = events.map(e => new Set(marksOf(e).map(m => m.attempt).concat(e.container ? attemptOf(e.container) : [],
  e.event === 'deliver' ? attemptOf(packets[e.packet].to) || (ATTEMPT.exec(packets[e.packet].says) || [])[0] : [],
  e.packets.map(p => (ATTEMPT.exec(p.says) || [])[0])).filter(Boolean)));
const flight = events.map(() => 0);
for (const p of packets) { flight[p.sent]++; if (p.got.length) flight[p.got[0]]--; }
for (let i = 1; i < flight.length; i++) flight[i] += flight[i - 1];
const isStep = events.map((e, i) => e.deciding || i === events.length - 1);
const shownMarks = e => marksOf(e).filter(m => !isMaps(m) || m.is !== 'launched');
const headMark = e => e.deciding ? marksOf(e).find(m => !isMaps(m)) : undefined;

// ---- columns: events beside each other, and gaps that are folded
const MOST = 300;
let at = 0, all = false, pin = null, timer = 0, live = fresh();
const unfolded = new Set();
function columns() {
  const raw = [], out = [];
  events.forEach((e, i) => {
    const tail = raw[raw.length - 1];
    if (isStep[i] || all && Math.abs(i - at) <= MOST) raw.push({ i });
    else if (tail && tail.gap) tail.to = i;
    else raw.push({ gap: true, from: i, to: i });
  });
  for (const c of raw) {
    if (!c.gap) { out.push(c); continue; }
    while (unfolded.has(c.from) && c.from <= c.to) {
      for (let i = c.from; i <= c.to && i < c.from + MOST; i++) out.push({ i });
      c.from += MOST;
    }
    if (c.from <= c.to) out.push(c);
  }
  return out;
}
const stops = () => columns().filter(c => !c.gap).map(c => c.i);
function layout(cols, room) {
  const narrow = innerWidth < 600, height = narrow ? 27 : 30, gaps = cols.filter(c => c.gap).length, shown = cols.length - gaps;
  const gap = narrow ? 5 : shown > 22 ? 8 : 16, fit = w => Math.max(12, Math.min(84, (w - gaps * gap) / Math.max(1, shown)));
  const slanted = fit(room) < 66 && fit(room - 40) >= 17, wide = fit(slanted ? room - 40 : room);
  const place = { X: [], fold: [], column: [], gap, height, slanted, wide, head: wide >= 66 ? 40 : slanted ? 80 : 26 };
  let x = 0;
  for (const c of cols) {
    c.x = x; c.w = c.gap ? gap : wide;
    for (let i = c.gap ? c.from : c.i; i <= (c.gap ? c.to : c.i); i++) { place.X[i] = x + c.w / 2; place.column[i] = c; if (c.gap) place.fold[i] = c; }
    x += c.w;
  }
  return { ...place, right: x, width: x + (slanted ? 40 : 10), bottom: place.head + lanes.length * height, Y: i => place.head + i * height + height / 2 };
}
const line = (g, p, lane, a, b, kind, name) => b > a && g.append(svg('line', { x1: a, x2: b, y1: p.Y(lane), y2: p.Y(lane),
  class: kind + (name ? ' a' : ''), 'data-a': name || '' }));
function drawLives(g, p) {
  const until = i => i === undefined ? p.right : p.X[i];
  lanes.forEach((lane, i) => line(g, p, i, 0, p.right, 'l0'));
  for (const [k, m] of Object.entries(masters)) if (laneAt[k] !== undefined) line(g, p, laneAt[k], p.X[m.from], until(m.to), 'life');
  for (const c of Object.values(containers)) {
    const lane = laneOf('container ' + c.id), from = p.fold[c.born], to = p.fold[c.ended];
    if (c.born !== undefined && lane !== undefined) line(g, p, lane, from ? from.x : p.X[c.born], to ? to.x + p.gap : until(c.ended), 'life', c.attempt);
  }
  for (const { a } of own) {
    const lane = laneAt[a.id], m = a.at, stop = m.lost ?? m.killed ?? m.died ?? m.failed ?? m['ended with its node'] ?? a.container?.ended;
    if (m.allowed !== undefined) line(g, p, lane, p.X[m.allowed], m.recorded === undefined ? until(stop) : p.X[m.recorded], 'k-blue', a.id);
    if (m.recorded !== undefined) {
      const end = m.won ?? m.lost, thin = a.container?.ended <= m.recorded ? ' thin' : '';
      line(g, p, lane, p.X[m.recorded], until(end), 'k-amber' + thin, a.id);
      line(g, p, laneAt.history, p.X[m.recorded], until(end), 'k-amber', a.id);
    }
    if (m.won !== undefined) line(g, p, lane, p.X[m.won], p.right, 'k-green', a.id);
    if (m.lost !== undefined) g.append(svg('g', { class: 'a', 'data-a': a.id }, signAt('x', p.X[m.lost], p.Y(lane))));
  }
}
function drawNetwork(g, p) {
  const top = flight.reduce((a, b) => Math.max(a, b), 1), floor = p.Y(laneAt.net) + 11;
  let d = `M0 ${floor}`;
  for (let i = 0; i < events.length; i++) if (!p.fold[i] || i === p.fold[i].to) d += `V${floor - 20 * flight[i] / top}H${p.column[i].x + p.column[i].w}`;
  g.append(svg('path', { d: d + `V${floor}z`, class: 'area' }));
  for (const packet of packets) for (const [n, got] of (packet.got.length ? packet.got : [undefined]).entries()) drawPacket(g, p, packet, n, got);
}
function drawPacket(g, p, packet, n, got) {
  const from = laneOf(packet.from), to = laneOf(packet.to), isShown = i => i !== undefined && !p.fold[i];
  if (from === undefined || to === undefined || !(isShown(packet.sent) || isShown(got)) || !all && packet.says.startsWith('Won')) return;
  const x1 = p.X[packet.sent], y1 = p.Y(from), x2 = got === undefined ? Math.min(x1 + 22, p.right - 5) : p.X[got];
  const y2 = got === undefined ? y1 + (p.Y(to) - y1) * .45 : p.Y(to), end = y2 - Math.sign(y2 - y1) * 6;
  const kind = /^Answer .* yes$/.test(packet.says) ? ' yes' : /^Answer .* no$/.test(packet.says) ? ' no' : '';
  const name = (ATTEMPT.exec(packet.says) || [attemptOf('container ' + packet.says.split(' ')[1])])[0];
  const fate = got === undefined ? 'never delivered' : (n ? 'delivered once more at ' : 'delivered at ') + got;
  const tip = `packet ${packet.place}: ${packet.from} → ${packet.to}\\n${brief(packet.says)}\\nsent at ${packet.sent}, ${fate}`;
  const ends = { x1, y1, x2, y2: end }, head = got === undefined ? 'url(#open)' : kind === ' yes' ? 'url(#yes)' : 'url(#tipped)';
  g.append(svg('g', { class: 'a', 'data-a': name || '' }, svg('line', { ...ends, class: 'hit', 'data-tip': tip, tabindex: -1 }),
    svg('line', { ...ends, class: 'pk' + kind, 'marker-end': head, 'stroke-dasharray': n ? '5 3' : 'none' })));
}
function drawEvent(g, p, c) {
  const i = c.i, e = events[i], x = p.X[i], who = laneOf(actorOf(e)), group = svg('g', { class: 'a', 'data-a': [...touches[i]].join(' '), 'data-i': i });
  const signs = new Map();
  for (const m of shownMarks(e)) { const lane = laneAt[m.lane] ?? laneOf(m.lane); if (lane !== undefined && !signs.has(lane)) signs.set(lane, m.sign); }
  if (e.call) {
    const what = laneAt[isHistory(e) ? 'history' : 'store'];
    if (who !== undefined) group.append(svg('line', { x1: x, x2: x, y1: p.Y(who), y2: p.Y(what), class: 'call' }));
    if (!signs.has(what)) signs.set(what, 'small');
  }
  if (who !== undefined && !signs.has(who)) signs.set(who, 'small');
  for (const [lane, kind] of signs) group.append(signAt(kind, x, p.Y(lane)));
  g.append(group);
}
function drawHeads(g, p, cols) {
  const space = 9 + 6 * String(events.length).length;
  let numbered = -99;
  for (const c of cols) if (!c.gap) {
    const x = p.X[c.i], mark = headMark(events[c.i]), hot = c.i === at ? ' here' : '';
    if (mark && p.slanted) g.append(svg('text', { transform: `translate(${x - 2} ${p.head - 20}) rotate(-42)`, class: hot }, mark.word));
    if (mark && p.wide >= 66) g.append(svg('text', { x, y: 15, 'text-anchor': 'middle', class: hot }, mark.word));
    if (hot || x - numbered >= space && Math.abs(x - p.X[at]) >= space) { g.append(svg('text', { x, y: p.head - 8, class: 'num' + hot }, c.i)); numbered = x; }
  }
}
const arrowHead = (id, color, path) => svg('marker', { id, viewBox: '0 0 8 8', refX: 7, refY: 4, markerWidth: 7, markerHeight: 7,
  markerUnits: 'userSpaceOnUse', orient: 'auto' }, svg('path', { d: path, fill: color, stroke: id === 'open' ? 'var(--soft)' : 'none' }));
function drawLanes() {
  const cols = columns(), room = $('scroll').clientWidth - (innerWidth < 600 ? 11 : 14), p = layout(cols, room), edge = p.column[at];
  const g = svg('svg', { class: 'main', width: p.width, height: p.bottom + 6, viewBox: `0 0 ${p.width} ${p.bottom + 6}`, role: 'img',
    'aria-label': 'The events of this run on lanes; the list below says the same' });
  const tall = { y: p.head, height: p.bottom - p.head };
  g.append(svg('defs', {}, arrowHead('tipped', 'var(--soft)', 'M0 0L8 4L0 8z'), arrowHead('yes', 'var(--blue)', 'M0 0L8 4L0 8z'),
    arrowHead('open', 'var(--card)', 'M1 4a3 3 0 1 0 6 0a3 3 0 1 0-6 0')));
  g.append(svg('rect', { x: edge.x, y: 0, width: edge.w, height: p.bottom, class: 'band' }));
  for (const c of cols) g.append(c.gap ? svg('rect', { x: c.x + 2, width: c.w - 4, ...tall, rx: 4, class: 'gap', 'data-gap': c.from })
    : svg('rect', { x: c.x, y: 0, width: c.w, height: p.bottom, class: 'col', 'data-i': c.i }));
  drawLives(g, p); drawNetwork(g, p);
  for (const c of cols) if (!c.gap) drawEvent(g, p, c);
  drawHeads(g, p, cols);
  g.append(svg('rect', { x: edge.x + edge.w, width: Math.max(0, p.right - edge.x - edge.w), ...tall, class: 'fog' }));
  const keep = $('scroll').scrollLeft;
  $('scroll').replaceChildren(g);
  $('names').replaceChildren(el('div', { style: `height:${p.head}px` }), ...lanes.map(lane => {
    const name = el('div', { style: `height:${p.height}px`, title: lane.attempt || '' }, lane.name, lane.sub ? el('small', {}, lane.sub) : '');
    if (lane.attempt) name.dataset.attempt = lane.attempt;
    return name;
  }));
  $('scroll').scrollLeft = edge.x < keep || edge.x + edge.w > keep + room ? edge.x - room / 2 : keep;
}
";
