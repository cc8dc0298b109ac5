//! The first part of the page's script: values, paths, and what passes between the page and the node.

macro_rules! with_node {
    ($rows:literal, $panels:literal) => {
        with_style!(
            r##"
"use strict";
{
const PART = 200; // so many rows of a list are shown at first, and with each "more"
const CHIPS = 50; // so many elements of a set are shown at first
const REST = 150; // the document is asked for again after this many milliseconds at the least
const RARE = 50; // what costs by the whole document is asked for once in so many times what it took
const RARE_LEAST = 1000;
const RARE_MOST = 60000;
const TRY_FIRST = 250;
const TRY_LAST = 15000;
const PATIENCE = 1000; // a link that is lost is told when it hasn't come back in this many milliseconds
const LOOK = 20000; // the node is asked whether it is there after this many milliseconds, and may take as many
const MOST_TOUCHED = 1000; // where more paths than this have changed, everything is asked for again
const KEY_BYTES = 64;
const TEXT_BYTES = 1024;
const MOST_KEYS = 8;
const UNREACHED = "The node can't be reached.";
const TYPES = ["text", "number", "true", "false", "null"];
const KINDS = ["counters", "regs", "sets", "maps"];
const FAULTS = {
  1: "The node has no memory left.",
  3: "A key has 1 to 64 bytes, and no slash.",
  4: "A path has 1 to 8 keys.",
  5: "A value is a text of at most 1,024 bytes, a whole number of 64 bits, true, false or null.",
  7: "This replica can write nothing more: it has used all its numbers.",
  8: "The counter would pass its limit.",
  15: "The document would be too long.",
  24: "The node can't write its file.",
  25: "The node doesn't read this value.",
};

// ---- elements

const at = id => document.getElementById(id);
const tree = at("tree");

// Makes an element. Texts among its children stay texts.
function make(name, attributes, ...children) {
  const made = document.createElement(name);
  for (const [key, value] of Object.entries(attributes)) {
    if (typeof value === "function") made.addEventListener(key, value);
    else if (value !== undefined && value !== false) made.setAttribute(key, value);
  }
  made.append(...children);
  return made;
}

const button = (text, click, more = {}) => make("button", { type: "button", click, ...more }, text);

// Lets a list have these elements in this order. Those that stay aren't moved, so they keep the focus.
function place(list, elements) {
  const stay = new Set(elements);
  for (const child of [...list.children]) if (!stay.has(child)) child.remove();
  let next = list.firstElementChild;
  for (const each of elements) {
    if (each === next) next = next.nextElementSibling;
    else list.insertBefore(each, next);
  }
}

const counted = (number, one, many) => `${number.toLocaleString("en")} ${number === 1 ? one : many}`;

// ---- values

// JSON.parse rounds whole numbers beyond 2^53, so long ones are read as objects with their digits.
const parsed = text => JSON.parse(!/\d{16}/.test(text) ? text : text.replace(/"[^"\\]*(?:\\.[^"\\]*)*"|-?\d{16,}/g,
  part => part[0] === '"' ? part : `{"digits":"${part}"}`));

const isNumber = value => typeof value === "number" || value !== null && typeof value === "object";
const json = value => value?.digits ?? JSON.stringify(value);
const typeOf = value => isNumber(value) ? "number" : typeof value === "string" ? "text" : String(value);

// A text that could be taken for something else stands in quotes.
const inWords = value => typeof value !== "string" ? json(value)
  : /^(|\s.*|.*\s|[-+]?\d+|true|false|null)$/s.test(value) ? `“${value}”` : value;

function shown(value) {
  const type = typeOf(value);
  const style = type === "text" || type === "number" ? type : "constant";
  return make("span", { class: style }, inWords(value));
}

const bytes = text => new TextEncoder().encode(text).length;

class Refused extends Error {}

// The JSON of what was typed.
function typed(type, text) {
  if (type === "text") {
    const count = bytes(text);
    if (count > TEXT_BYTES) throw new Refused(`This text has ${counted(count, "byte", "bytes")}, of at most 1,024.`);
    return JSON.stringify(text);
  }
  return type === "number" ? whole(text).toString() : type;
}

function whole(text) {
  if (!/^\s*[-+]?\d+\s*$/.test(text)) throw new Refused("A number is whole: digits, with a minus where it is below 0.");
  const number = BigInt(text.trim().replace("+", ""));
  if (number !== BigInt.asIntN(64, number)) throw new Refused("A number has at most 64 bits, with its sign.");
  return number;
}

const guessed = text => /^\s*[-+]?\d+\s*$/.test(text) ? "number" : /^(true|false|null)$/.test(text) ? text : "text";

// ---- paths

const joined = (path, key) => path === "" ? key : `${path}/${key}`;
const depth = path => path === "" ? 0 : path.split("/").length;

// A browser takes a key "." or ".." for a step up, unless it is a part of something longer: then slashes are "%2F".
function address(word, path) {
  if (path === "") return `/${word}`;
  const keys = path.split("/");
  const has_dots = keys.some(key => key === "." || key === "..");
  return `/${word}/` + keys.map(encodeURIComponent).join(has_dots ? "%2F" : "/");
}

function checkKeys(path) {
  const keys = path.split("/");
  if (keys.some(key => key === "" || bytes(key) > KEY_BYTES)) {
    throw new Refused(`A key has 1 to ${KEY_BYTES} bytes; slashes stand between keys.`);
  }
  if (keys.length > MOST_KEYS) throw new Refused(`A path has at most ${MOST_KEYS} keys.`);
}

// ---- the node

const ask = async (where, body) => (await answered(where, body)).text;

// What the node answers, and the mark of the document, which is the tag of what /doc, /here and /conflicts show.
async function answered(where, body) {
  let answer, text;
  try {
    answer = await fetch(where, body === undefined ? { cache: "no-cache", signal: AbortSignal.timeout(LOOK) }
      : { method: "POST", body });
    text = await answer.text();
  } catch {
    lose();
    throw new Refused(body === undefined ? UNREACHED : "The node didn't answer. Look whether the change is there.");
  }
  if (answer.status === 401) {
    askForToken();
    throw new Refused("The node asks for a token.");
  }
  if (!answer.ok) throw new Refused(refusal(text) || `The node answered ${answer.status}.`);
  return { text, mark: answer.headers.get("ETag")?.match(/[0-9a-f]{32}/)?.[0] };
}

function refusal(text) {
  try {
    const told = JSON.parse(text.split("\n")[0]);
    return FAULTS[told.fault] || told.text;
  } catch {
    return "";
  }
}

// Sends edits, each of which is a verb, a path and perhaps the JSON of a value.
async function edit(...edits) {
  const lines = edits.map(([verb, path, ...value]) => `["${verb}",${[JSON.stringify(path), ...value].join()}]\n`);
  const answers = linesOf(await ask("/edits", lines.join(""))).map(line => JSON.parse(line));
  touch(edits.map(([, path]) => path));
  refresh();
  const refused = answers.find(answer => answer.fault);
  if (refused) throw new Refused(FAULTS[refused.fault] || `The node refused this: ${refused.name}.`);
}

const linesOf = text => text.split("\n").filter(line => line !== "");

// Does the work now, or once more after it, when it has rested: as long as it took, and `rest` at the least.
function rested(work, rest) {
  let isBusy = false, isDue = false;
  return async () => {
    isDue = true;
    if (isBusy) return;
    isBusy = true;
    while (isDue) {
      isDue = false;
      const begun = performance.now();
      await work().catch(tellRefusal);
      await new Promise(done => setTimeout(done, Math.max(rest, performance.now() - begun)));
    }
    isBusy = false;
  };
}

// Does the work where it is due, once somebody looks: not before 50 times as long as it took last, and a second at the
// least and a minute at the most. What is refused stays due.
function rarely(work) {
  let isDue = false, isBusy = false, next = 0, timer = 0;
  const act = async () => {
    clearTimeout(timer);
    if (!isDue || isBusy || isUnseen()) return;
    const begun = performance.now();
    if (begun < next) {
      timer = setTimeout(act, next - begun);
      return;
    }
    isDue = false;
    isBusy = true;
    const isDone = await work().then(() => true, tellRefusal);
    const ended = performance.now();
    next = ended + Math.min(Math.max(RARE * (ended - begun), RARE_LEAST), RARE_MOST);
    isBusy = false;
    if (isDone) act();
    else isDue = true;
  };
  return { act, due: () => { isDue = true; } };
}

// Whether nobody sees the document.
const isUnseen = () => document.hidden || !at("login").hidden;

function ignoreRefusal(error) {
  if (!(error instanceof Refused)) throw error;
}

// Tells of a refusal, unless it is that of a lost link, which is told by itself.
function tellRefusal(error) {
  ignoreRefusal(error);
  if (socket) toast(error.message);
}

// ---- following

let socket = null, opened = 0, lost = -PATIENCE, isConnecting = false, again = 0, telling = 0, wait = TRY_FIRST;

// The turn and the mark that were told last, and whether all that changed until then is touched.
let turn = 0, mark, isCaughtUp = false;

async function connect() {
  if (socket || isConnecting || !at("login").hidden) return;
  isConnecting = true;
  clearTimeout(again);
  tellLink("", "Connecting");
  try {
    await catchUp();
    listen();
  } catch (error) {
    ignoreRefusal(error);
    connectLater(error.message);
  } finally {
    isConnecting = false;
  }
}

function listen() {
  opened = turn = 0;
  isCaughtUp = false;
  for (const id of ["tools", "keys", "copy"]) at(id).hidden = false;
  socket = new WebSocket(`${location.protocol === "https:" ? "wss" : "ws"}://${location.host}/live`);
  socket.onopen = () => {
    opened = performance.now();
    tellLink("live", "Live");
    follow();
  };
  socket.onmessage = event => hear(JSON.parse(event.data));
  socket.onclose = lose;
  if (performance.now() - lost > PATIENCE) overview.due();
  refresh();
}

// Asks whether anything has changed that wasn't told: then it may be anything. This look is short, and has the mark.
async function catchUp() {
  const before = turn, now = (await answered("/here/-")).mark;
  if (turn !== before || now && now === mark) return;
  mark = now;
  touch(null);
  overview.due();
}

async function follow() {
  await catchUp().then(() => { isCaughtUp = true; }, tellRefusal);
  if (socket) refresh();
}

// The news of a turn: the paths that it changed, or null where that may be any. A turn that wasn't told is missed.
function hear(news) {
  const isNext = turn === 0 ? isCaughtUp : news.turn === turn + 1;
  ({ turn, mark } = news);
  touch(isNext && Array.isArray(news.paths) ? news.paths : null);
  overview.due();
  refresh();
}

function lose() {
  if (!socket) return;
  const gone = socket;
  socket = gone.onopen = gone.onmessage = gone.onclose = null;
  gone.close();
  if (opened > 0) lost = performance.now();
  if (opened > 0 && lost - opened > 5000) wait = TRY_FIRST;
  connectLater(opened > 0 ? UNREACHED : "The node doesn't tell of changes.");
}

function connectLater(text) {
  if (!at("login").hidden) return;
  const pause = wait * (0.75 + Math.random() / 2);
  wait = Math.min(2 * wait, TRY_LAST);
  tellLink("lost", pause < 1500 ? text : `${text} Trying again in ${Math.round(pause / 1000)} s.`);
  again = setTimeout(connect, pause);
}

// Tells how the link stands. That it is lost waits a while, since many a link comes back at once.
function tellLink(state, text) {
  clearTimeout(telling);
  const left = lost + PATIENCE - performance.now();
  if (state !== "live" && left > 0) {
    telling = setTimeout(tellLink, left, state, text);
    return;
  }
  at("link").className = state;
  at("link-text").textContent = text;
  at("again").hidden = state !== "lost";
}

// ---- the head

let status = null, counts = null;

// What costs by the whole document.
const overview = rarely(async () => {
  await loadStatus();
  await loadRivals();
});

async function loadStatus() {
  status = JSON.parse(await ask("/status"));
  document.title = `${status.group} – ${status.own}`;
  at("group").textContent = status.group;
  at("own").textContent = `at ${status.own}`;
  at("copy").download = `${status.group}-${status.own}.rds`;
  drawFacts();
  drawPeers();
}

// What the node has counted. This costs little.
async function loadCounts() {
  const text = await ask("/metrics");
  const countOf = name => Number(text.match(new RegExp(`^rds_${name} (\\d+)$`, "m"))?.[1] ?? 0);
  counts = { live: countOf("live_entries"), peers: countOf("peers"), met: countOf("peers_met") };
  const isAsTold = status && counts.met === status.peers.met && countOf("behind") === Number(status.behind)
    && countOf("unwritable") === Number(status.unwritable);
  if (!isAsTold || counts.met < counts.peers) overview.due();
  const forked = countOf("peers_forked");
  at("forked").hidden = forked === 0;
  at("forked").textContent = `${counted(forked, "peer has", "peers have")} seen the same and ${forked === 1 ? "holds" :
    "hold"} other entries: two replicas share a name, or a backup was put back and edited.`;
  drawFacts();
}

function drawFacts() {
  if (!status || !counts) return;
  const names = status.names.slice(0, 12);
  if (status.names.length > names.length) names.push(`and ${status.names.length - names.length} more`);
  const facts = [counted(counts.live, "entry", "entries")];
  if (status.counters > 0) facts.push(counted(status.counters, "counter", "counters"));
  facts.push(`${status.names.length === 1 ? "replica" : "replicas"} ${names.join(", ")}`);
  if (counts.peers > 0) facts.push(`${counts.met} of ${counted(counts.peers, "peer", "peers")} met`);
  at("facts").textContent = facts.join(" · ");
}

// Tells which peers aren't met and why, and where the node refuses edits.
function drawPeers() {
  const apart = status.peers.each.filter(({ met, why }) => !met && why).map(({ name, why }) => `Peer ${name}: ${why}`);
  at("apart").hidden = apart.length === 0;
  at("apart").textContent = apart.join(" · ");
  at("behind").hidden = !status.behind;
  at("unwritable").hidden = !status.unwritable;
}

// ---- what has changed

// The paths that have changed since they were asked for; null where that may be any.
let touched = null;

function touch(paths) {
  const more = paths && touched && [...touched, ...paths];
  touched = more && more.length <= MOST_TOUCHED ? new Set(more) : null;
}

// Whether one of two paths leads to the other.
const isAlong = (path, other) => path === "" || path === other || other.startsWith(`${path}/`);
const isTouched = (path, paths) => !paths || [...paths].some(other => isAlong(path, other) || isAlong(other, path));

// Asks again for what is open and has changed, and then for what costs more.
const refresh = rested(async () => {
  if (isUnseen()) return;
  const paths = touched;
  touched = new Set();
  try {
    const open = [...levels.values()].filter(level => isTouched(level.path, paths));
    await Promise.all([loadCounts(), ...open.map(level => level.load())]);
  } catch (error) {
    touched = null;
    throw error;
  }
  overview.act();
}, REST);

// ---- registers with several values

let rivals = new Set(), rival = 0, rivalsMark;

// All of them are asked for where the document isn't as it was.
async function loadRivals() {
  if (rivalsMark && rivalsMark === mark) return;
  const { text, mark: asOf } = await answered("/conflicts");
  rivalsMark = asOf;
  rivals = new Set(linesOf(text).map(line => JSON.parse(line).path));
  for (const level of levels.values()) noteRivals(level);
  drawRivals();
}

// What a list that is there tells of them: which registers in it have several values, and what is gone.
function noteRivals({ path, items, answered: times }) {
  if (times === 0) return;
  const start = path === "" ? "" : `${path}/`;
  const maps = new Set(), several = new Set();
  for (const { kind, key, values } of items) {
    if (kind === "maps") maps.add(start + key);
    else if (kind === "regs" && values.length > 1) several.add(start + key);
  }
  for (const each of rivals) {
    const end = each.indexOf("/", start.length);
    const isThere = end < 0 ? several.has(each) : maps.has(each.slice(0, end));
    if (each.startsWith(start) && !isThere) rivals.delete(each);
  }
  for (const each of several) rivals.add(each);
}

function drawRivals() {
  at("rivals").hidden = rivals.size === 0;
  at("rivals-text").textContent = rivals.size === 1 ? "One register has more than one value." :
    `${rivals.size.toLocaleString("en")} registers have more than one value.`;
}

async function showNextRival() {
  if (rivals.size > 0) await reveal([...rivals][rival++ % rivals.size], "regs");
}

// ---- the token

function askForToken() {
  if (!at("login").hidden) return;
  at("login").hidden = false;
  for (const id of ["tree", "tools", "keys", "rivals", "forked", "apart", "behind", "unwritable", "copy"]) {
    at(id).hidden = true;
  }
  tellLink("", "Waiting for a token");
  lose();
  at("token").focus();
}

async function enter(event) {
  event.preventDefault();
  at("login-note").textContent = "";
  try {
    const answer = await fetch("/login", { method: "POST", body: at("token").value });
    if (!answer.ok) {
      at("login-note").textContent =
        answer.status === 401 ? "This isn't the node's token." : `The node answered ${answer.status}.`;
      at("token").select();
      return;
    }
  } catch {
    at("login-note").textContent = UNREACHED;
    return;
  }
  at("token").value = "";
  at("login").hidden = true;
  at("tree").hidden = false;
  drawRivals();
  connect();
}

// ---- what is told for a while

let toastEnds = 0;

function toast(text, word, act) {
  clearTimeout(toastEnds);
  at("toast").replaceChildren(make("span", {}, text));
  if (word) {
    at("toast").append(button(word, () => {
      at("toast").hidden = true;
      attempt(act);
    }));
  }
  at("toast").hidden = false;
  toastEnds = setTimeout(endToast, 8000);
}

function endToast() {
  if (at("toast").matches(":hover, :focus-within")) toastEnds = setTimeout(endToast, 1000);
  else at("toast").hidden = true;
}

// Does something, and tells where it is refused.
async function attempt(act) {
  try {
    await act();
  } catch (error) {
    ignoreRefusal(error);
    toast(error.message);
  }
}
"##,
            $rows,
            $panels
        )
    };
}

pub(crate) use with_node;
