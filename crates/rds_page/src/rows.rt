//! The second part of the page's script: the tree, its lists and its rows.

macro_rules! with_rows {
    ($panels:literal) => {
        with_node!(
            r##"
// ---- levels: a map that is open, and its list

const levels = new Map();
let wanted = "";

class Level {
  constructor(path, list) {
    this.path = path;
    this.list = list;
    this.items = [];
    this.rows = new Map();
    this.begun = new Set(); // keys of maps that are to get their first entry
    this.limit = PART;
    this.asked = this.answered = 0;
    this.adding = null; // the line that adds something here
    this.waiting = make("li", { class: "loose late", role: "none" }, "Loading");
    levels.set(path, this);
    this.draw();
  }

  async load() {
    const turn = ++this.asked;
    const items = itemsOf(await this.view());
    if (turn < this.answered || levels.get(this.path) !== this) return;
    this.answered = turn;
    this.items = items;
    this.draw();
    noteRivals(this);
    drawRivals();
  }

  // A map "." or ".." of the root has no address of its own.
  async view() {
    if (this.path !== "." && this.path !== "..") return parsed(await ask(address("here", this.path)));
    return parsed(await ask("/doc")).maps[this.path] || {};
  }

  // The items, with what isn't in the document but in use here, as far as they are looked for.
  chosen() {
    for (const item of this.items) if (item.kind === "maps") this.begun.delete(item.key);
    const begun = [...this.begun].map(key => ({ kind: "maps", key, rank: KINDS.indexOf("maps"), isBegun: true }));
    const held = [...begun, ...this.held()];
    const items = held.length === 0 ? this.items : [...held, ...this.items].sort(inOrder);
    if (wanted === "") return items;
    return items.filter(item => item.key.toLowerCase().includes(wanted) || levels.has(joined(this.path, item.key)));
  }

  // What others have deleted while something is typed there.
  held() {
    const typed = [...this.rows.values()].filter(row => row.isTyped() && !this.begun.has(row.key));
    return typed.filter(row => !this.items.some(item => nameOf(item) === nameOf(row)))
      .map(({ kind, key, values }) => ({ kind, key, values, rank: KINDS.indexOf(kind), isGone: true }));
  }

  draw() {
    if (this.answered === 0) {
      place(this.list, this.adding ? [this.adding.item, this.waiting] : [this.waiting]);
      return;
    }
    const items = this.chosen();
    const used = items.findLastIndex(item => this.rows.get(nameOf(item))?.isUsed());
    while (this.limit <= used) this.limit += PART;
    const rows = new Map();
    items.slice(0, this.limit).forEach((item, place) => {
      const row = this.rows.get(nameOf(item)) || new Row(this, item);
      row.update(item, place, items.length);
      rows.set(nameOf(item), row);
    });
    for (const [name, row] of this.rows) if (!rows.has(name)) row.leave();
    this.rows = rows;
    const elements = [...rows.values()].map(row => row.item);
    if (this.adding) elements.unshift(this.adding.item);
    place(this.list, [...elements, ...this.ending(items.length)]);
    if (!tree.querySelector(".item[tabindex='0']")) tree.querySelector(".item")?.setAttribute("tabindex", 0);
  }

  // What stands behind the rows.
  ending(count) {
    const left = count - this.limit;
    if (left > 0) {
      const text = `Show ${Math.min(left, PART)} more of ${left.toLocaleString("en")}`;
      this.more ||= new More(this);
      this.more.button.textContent = text;
      return [this.more.item];
    }
    if (count > 0 || this.adding) return [];
    const text = wanted !== "" ? "No such key" : this.path === "" ? "This document is empty." : "Nothing in it";
    return [make("li", { class: "loose", role: "none" }, text)];
  }

  close() {
    for (const row of this.rows.values()) row.leave();
    levels.delete(this.path);
    this.list.replaceChildren();
  }

  // The row of a key, which is brought to view.
  rowOf(kind, key) {
    const at = this.chosen().findIndex(item => item.kind === kind && item.key === key);
    if (at < 0) return undefined;
    while (this.limit <= at) this.limit += PART;
    this.draw();
    return this.rows.get(nameOf({ kind, key }));
  }
}

const nameOf = ({ kind, key }) => `${kind} ${key}`;

function itemsOf(view) {
  const items = KINDS.flatMap((kind, rank) =>
    Object.entries(view[kind] || {}).map(([key, values]) => ({ kind, key, values, rank })));
  return items.sort(inOrder);
}

const inOrder = (a, b) => a.key < b.key ? -1 : a.key > b.key ? 1 : a.rank - b.rank;

class More {
  constructor(level) {
    this.level = level;
    this.button = button("", () => this.show(), { tabindex: -1 });
    this.item = make("li", { class: "item loose", role: "treeitem", tabindex: -1,
      "aria-level": depth(level.path) + 1 }, this.button);
    this.item.row = this;
  }

  show() {
    const last = this.item.previousElementSibling;
    this.level.limit += PART;
    this.level.draw();
    last.nextElementSibling.focus();
  }

  enter() {
    this.show();
  }
}

async function reveal(path, kind) {
  if (wanted !== "") {
    at("find").value = "";
    find();
  }
  let level = levels.get("");
  const keys = path.split("/");
  for (const key of keys.slice(0, -1)) {
    const row = level.rowOf("maps", key);
    if (!row) return;
    level = row.open();
    await level.first;
  }
  const row = level.rowOf(kind, keys.at(-1));
  row?.item.focus();
  row?.item.scrollIntoView({ block: "nearest" });
}

// ---- rows: a key with what stands there

class Row {
  constructor(level, item) {
    this.level = level;
    this.path = joined(level.path, item.key);
    this.kind = item.kind;
    this.key = item.key;
    this.said = null;
    this.chipsLimit = CHIPS;
    this.value = make("div", { class: "value" });
    this.acts = make("div", { class: "acts" }, ...this.actions());
    const name = make("span", { class: "name" }, item.key);
    const key = make("div", { class: "key" }, make("span", { class: "turn" }), name);
    this.line = make("div", { class: "row", click: event => this.click(event),
      dblclick: event => this.clickTwice(event) }, key, this.value, this.acts);
    this.item = make("li", { class: this.isMap() ? "item map" : "item", role: "treeitem", tabindex: -1,
      "aria-level": depth(this.path), "aria-expanded": this.isMap() ? "false" : undefined }, this.line);
    this.item.row = this;
  }

  isMap() {
    return this.kind === "maps";
  }

  actions() {
    const word = { regs: "Edit", sets: "Add", maps: "Add", counters: "Change" }[this.kind];
    const act = this.isMap() ? () => this.add() : () => this.enter();
    const acts = this.isMap() && depth(this.path) === MOST_KEYS ? [] : [button(word, act, { tabindex: -1 })];
    if (this.kind !== "counters") acts.push(button("Delete", () => this.remove(), { tabindex: -1 }));
    return acts;
  }

  click(event) {
    if (event.target.closest("button, .chip, .panel")) return;
    if (getSelection().toString() !== "") return;
    this.item.focus();
    if (this.isMap()) this.toggle();
  }

  clickTwice(event) {
    if (!this.isMap() && !event.target.closest("button, .chip, .panel")) this.enter();
  }

  update(item, place, count) {
    this.isBegun = item.isBegun;
    if (item.isGone && !this.isGone) this.panel?.tell("Deleted meanwhile.");
    this.isGone = item.isGone;
    this.item.setAttribute("aria-posinset", place + 1);
    this.item.setAttribute("aria-setsize", count);
    const said = this.isMap() ? "map" : JSON.stringify(item.values);
    if (said === this.said) return;
    const isNew = this.said === null;
    this.said = said;
    this.values = item.values;
    this.drawValue();
    this.item.setAttribute("aria-label", `${this.key}: ${this.inWords()}`);
    if (!isNew) this.flash();
    if (!isNew && this.kind === "regs") this.panel?.tell(`Changed meanwhile: it is ${this.inWords()} now.`);
  }

  flash() {
    if (matchMedia("(prefers-reduced-motion: reduce)").matches) return;
    const colour = { backgroundColor: "var(--flash)" };
    this.line.animate([colour, { ...colour, offset: 0.4 }, {}], 1600);
  }

  inWords() {
    if (this.isMap()) return "map";
    if (this.kind === "counters") return `counter ${json(this.values)}`;
    if (this.kind === "sets") return `set of ${this.values.length}`;
    const words = this.values.map(inWords);
    return words.length === 1 ? words[0] : `${words.length} values: ${words.join(", ")}`;
  }

  drawValue() {
    const chip = document.activeElement?.closest?.(".chip");
    const held = this.value.contains(chip) ? chip.dataset.value : undefined;
    const parts = { regs: () => this.register(), sets: () => this.set(), counters: () => this.counter() };
    place(this.value, [...(parts[this.kind]?.() || []), ...(this.panel ? [this.panel] : [])]);
    if (held === undefined) return;
    const same = [...this.value.querySelectorAll(".chip")].find(each => each.dataset.value === held);
    (same || this.item).focus();
  }

  register() {
    if (this.values.length === 1) return [shown(this.values[0])];
    const badge = make("span", { class: "badge" }, `${this.values.length} values, keep one:`);
    return [badge, this.chips("rival", value => this.keep(value))];
  }

  set() {
    return [this.chips("element", null, value => this.discard(value))];
  }

  chips(style, act, remove) {
    const chips = this.values.slice(0, this.chipsLimit).map(value => {
      const words = inWords(value);
      const chip = this.chip(style, words, shown(value));
      chip.dataset.value = json(value);
      if (remove) chip.append(button("×", () => remove(value), { tabindex: -1, "aria-label": `Delete ${words}` }));
      if (act) chip.addEventListener("click", () => act(value));
      chip.act = act && (() => act(value));
      chip.discard = remove && (() => remove(value));
      return chip;
    });
    const left = this.values.length - chips.length;
    if (left > 0) {
      const text = `${Math.min(left, PART)} more of ${left.toLocaleString("en")}`;
      const more = this.chip("", text, text);
      more.act = () => {
        this.chipsLimit += PART;
        this.drawValue();
      };
      more.addEventListener("click", more.act);
      chips.push(more);
    }
    return make("ul", { class: "chips", role: "group" }, ...chips);
  }

  chip(style, words, ...children) {
    return make("li", { class: `chip ${style}`, role: "treeitem", tabindex: -1, "aria-level": depth(this.path) + 1,
      "aria-label": words, title: words }, ...children);
  }

  counter() {
    return [make("span", { class: "count" },
      button("−", () => this.count(-1n), { tabindex: -1, "aria-label": "One less" }),
      shown(this.values),
      button("+", () => this.count(1n), { tabindex: -1, "aria-label": "One more" }))];
  }

  // ---- what is done with it

  isUsed() {
    return Boolean(this.panel) || this.isMap() && levels.has(this.path) || this.item.contains(document.activeElement);
  }

  isTyped() {
    return Boolean(this.isMap() ? levels.get(this.path)?.adding : this.panel);
  }

  leave() {
    if (this.isMap()) levels.get(this.path)?.close();
    if (!this.item.contains(document.activeElement)) return;
    const next = [...tree.querySelectorAll(".item")].filter(item => !this.item.contains(item) || item === this.item);
    const place = next.indexOf(this.item);
    (next[place + 1] || next[place - 1])?.focus();
  }

  // Opens the map. Its level is there at once, and `first` is when it is loaded.
  open() {
    const opened = levels.get(this.path);
    if (opened) return opened;
    const list = make("ul", { class: "below", role: "group" });
    this.item.append(list);
    this.item.setAttribute("aria-expanded", "true");
    const level = new Level(this.path, list);
    level.first = level.load();
    attempt(() => level.first);
    return level;
  }

  shut() {
    const level = levels.get(this.path);
    if (!level) return;
    if (level.list.contains(document.activeElement)) this.item.focus();
    level.close();
    level.list.remove();
    this.item.setAttribute("aria-expanded", "false");
  }

  toggle() {
    if (levels.has(this.path)) this.shut();
    else this.open();
  }

  enter() {
    if (this.isMap()) this.toggle();
    else if (this.kind === "regs") this.change();
    else if (this.kind === "sets") this.addElement();
    else this.changeCount();
  }

  use(panel, hides) {
    this.give();
    this.panel = panel;
    this.value.append(panel);
    this.item.classList.add("used");
    this.item.classList.toggle("hides", hides);
    panel.first.focus();
    panel.first.select?.();
  }

  give() {
    const had = this.panel?.contains(document.activeElement);
    this.panel?.remove();
    this.panel = null;
    this.item.classList.remove("used", "hides");
    if (had) this.item.focus();
    if (this.isGone) this.level.draw();
  }

  change() {
    const field = new Field(this.values[0]);
    const panel = panelOf([field], "Save", async () => {
      await edit(["set", this.path, field.json()]);
      await this.level.load();
      this.give();
    }, () => this.give());
    this.use(panel, true);
  }

  addElement() {
    const field = new Field();
    const panel = panelOf([field], "Add", async () => {
      const [value, text] = [field.json(), field.input.value];
      field.clear();
      try {
        await edit(["add", this.path, value]);
      } catch (error) {
        if (field.input.value === "") field.input.value = text;
        throw error;
      }
      await this.level.load();
    }, () => this.give());
    this.use(panel, false);
  }

  changeCount() {
    const by = make("input", { "aria-label": "By how much", placeholder: "10 or -3" });
    const panel = panelOf([{ parts: [by], first: by }], "Change", async () => {
      await this.count(whole(by.value));
      this.give();
    }, () => this.give());
    this.use(panel, false);
  }

  async count(by) {
    const act = async () => {
      await edit(counting(this.key, by));
      await this.level.load();
    };
    return this.panel ? act() : attempt(act);
  }

  keep(value) {
    attempt(async () => {
      const had = this.item.contains(document.activeElement);
      await edit(["set", this.path, json(value)]);
      if (had) this.item.focus();
      await this.level.load();
    });
  }

  discard(value) {
    attempt(async () => {
      await edit(["del", this.path, json(value)]);
      await this.level.load();
      const undo = () => edit(["add", this.path, json(value)]);
      toast(`Deleted ${short(inWords(value))} from ${short(this.key)}.`, "Undo", undo);
    });
  }

  // What stands at this path besides, which a clear takes away too.
  company() {
    const words = { regs: "the value", sets: "the set", maps: "all that stands below" };
    return this.level.items.filter(item => item.key === this.key && item.kind !== this.kind && item.kind in words)
      .map(item => words[item.kind]);
  }

  remove() {
    if (this.isBegun) {
      this.level.begun.delete(this.key);
      this.level.draw();
    } else if (this.kind === "counters") this.zero();
    else if (this.kind === "sets") this.clearSet();
    else if (this.isMap() || this.values.length > 1 || this.company().length > 0) this.confirmClear();
    else this.clear(() => edit(["set", this.path, json(this.values[0])]));
  }

  zero() {
    const value = BigInt(json(this.values));
    const text = "A counter can't be deleted.";
    if (value === 0n) toast(text);
    else toast(text, "Bring it to 0", () => this.count(-value));
  }

  clearSet() {
    const values = this.values;
    attempt(async () => {
      await edit(...values.map(value => ["del", this.path, json(value)]));
      await this.level.load();
      toast(`Deleted ${short(this.key)}.`, "Undo", () => edit(...values.map(value => ["add", this.path, json(value)])));
    });
  }

  confirmClear() {
    const all = this.isMap() ? " and all that stands below it" : this.values.length > 1 ? " with all its values" : "";
    const more = this.company().join(" and ");
    const text = `Delete ${short(this.key)}${all}?${more && ` With it goes ${more} of the same name.`}`;
    const go = button("Delete", async () => {
      this.give();
      attempt(() => this.clear());
    }, { class: "danger" });
    const panel = make("div", { class: "panel", role: "group", keydown: event => giveUp(event, () => this.give()) },
      make("span", { class: "ask" }, text), go, button("Keep", () => this.give()));
    panel.first = go;
    panel.tell = () => {};
    this.use(panel, true);
  }

  async clear(undo) {
    await attempt(async () => {
      await edit(["clear", this.path]);
      await this.level.load();
      toast(`Deleted ${short(this.key)}.`, undo && "Undo", undo);
    });
  }

  add() {
    addTo(this.open());
  }
}

const counting = (key, by) => by < 0n ? ["dec", key, String(-by)] : ["inc", key, String(by)];

const short = text => text.length > 40 ? `${text.slice(0, 39)}…` : text;
"##,
            $panels
        )
    };
}

pub(crate) use with_rows;
