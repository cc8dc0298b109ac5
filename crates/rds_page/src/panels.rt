//! The last part of the page's script: where something is typed, and the keyboard.

macro_rules! page {
    () => {
        with_rows!(
            r##"
// ---- panels: where something is typed

// A field for a value: its type, and its text. Of a new value the type is what the text looks like, until it is chosen.
class Field {
  constructor(value) {
    this.isChosen = value !== undefined;
    const types = TYPES.map(type => make("option", { value: type }, type));
    this.types = make("select", { "aria-label": "Type", change: () => this.choose() }, ...types);
    this.input = make("textarea", { "aria-label": "Value", rows: 1, placeholder: "Value", spellcheck: "false",
      input: () => this.follow() });
    this.input.value = value === undefined ? "" : typeof value === "string" ? value : json(value);
    this.types.value = value === undefined ? "text" : typeOf(value);
    this.parts = [this.types, this.input];
    this.follow();
    requestAnimationFrame(() => this.fit());
  }

  get first() {
    return this.input.hidden ? this.types : this.input;
  }

  choose() {
    this.isChosen = true;
    this.follow();
  }

  follow() {
    if (!this.isChosen) this.types.value = guessed(this.input.value);
    this.input.hidden = this.isChosen && !["text", "number"].includes(this.types.value);
    this.fit();
  }

  fit() {
    this.input.style.height = "0";
    this.input.style.height = `${this.input.scrollHeight + 2}px`;
  }

  clear() {
    this.input.value = "";
    this.isChosen = false;
    this.follow();
    this.input.focus();
  }

  json() {
    return typed(this.types.value, this.input.value);
  }
}

function panelOf(fields, word, save, close) {
  const note = make("p", { class: "note", role: "alert" });
  const act = async () => {
    note.textContent = "";
    try {
      await save();
    } catch (error) {
      ignoreRefusal(error);
      note.textContent = error.message;
    }
  };
  const panel = make("div", { class: "panel", keydown: event => {
    giveUp(event, close);
    if (event.key === "Enter" && !event.shiftKey && !event.isComposing && event.target.tagName !== "BUTTON") {
      event.preventDefault();
      act();
    }
  } });
  const parts = fields.flatMap(field => field.parts);
  panel.append(...parts, button(word, act, { class: "main" }), button("Cancel", close), note);
  panel.first = fields[0].first;
  panel.act = act;
  panel.tell = text => { note.textContent = text; };
  return panel;
}

function giveUp(event, close) {
  event.stopPropagation();
  if (event.key !== "Escape") return;
  event.preventDefault();
  close();
}

// A line that adds something to a map.
class Adding {
  constructor(level) {
    this.level = level;
    this.key = make("input", { "aria-label": "Key", placeholder: "Key", autocomplete: "off", spellcheck: "false",
      keydown: event => this.press(event) });
    this.kinds = make("select", { "aria-label": "Kind", change: () => this.choose() }, ...this.choices());
    this.field = new Field();
    this.panel = panelOf([{ parts: [this.kinds] }, this.field], "Add", () => this.save(), () => this.close());
    const key = make("div", { class: "key" }, make("span", { class: "turn" }), this.key);
    this.item = make("li", { class: "adding item used", role: "none" },
      make("div", { class: "row" }, key, make("div", { class: "value" }, this.panel)));
  }

  choices() {
    const choices = [["regs", "value"], ["sets", "set with"]];
    if (depth(this.level.path) < MOST_KEYS - 1) choices.push(["maps", "map"]);
    if (this.level.path === "") choices.push(["counters", "counter at"]);
    return choices.map(([kind, word]) => make("option", { value: kind }, word));
  }

  choose() {
    const kind = this.kinds.value;
    this.field.types.hidden = kind === "maps" || kind === "counters";
    this.field.input.hidden = kind === "maps";
    this.field.isChosen = false;
    if (kind === "counters" && this.field.input.value === "") this.field.input.value = "1";
  }

  press(event) {
    giveUp(event, () => this.close());
    if (event.key !== "Enter") return;
    event.preventDefault();
    if (this.kinds.value === "maps") this.panel.act();
    else this.field.first.focus();
  }

  close() {
    const had = this.item.contains(document.activeElement);
    this.level.adding = null;
    this.level.draw();
    if (had) (this.level.list.closest(".item") || tree.querySelector(".item"))?.focus();
  }

  async save() {
    const { level, key: { value: key }, kinds: { value: kind } } = this;
    checkKeys(joined(level.path, key));
    await this.write(kind, key);
    level.adding = null;
    await level.load();
    if (kind === "maps") addTo(level.rowOf("maps", key).open());
    else await reveal(joined(level.path, key), kind);
  }

  async write(kind, key) {
    const path = joined(this.level.path, key);
    const isBare = kind === "maps" || kind === "counters";
    if (isBare && key.includes("/")) throw new Refused("There is no slash in the key of a map, or of a counter.");
    if (kind === "regs") await edit(["set", path, this.field.json()]);
    else if (kind === "sets") await edit(["add", path, this.field.json()]);
    else if (kind === "maps") this.level.begun.add(key);
    else {
      const by = whole(this.field.input.value);
      if (by === 0n) throw new Refused("A counter begins with another number than 0.");
      await edit(counting(key, by));
    }
  }
}

function addTo(level) {
  level.adding = new Adding(level);
  level.draw();
  level.adding.key.focus();
}

// ---- keys

const items = () => [...tree.querySelectorAll(".item:not(.adding)")];

function step(from, by) {
  const all = items();
  all[all.indexOf(from) + by]?.focus();
}

const moves = {
  ArrowDown: item => step(item, 1),
  ArrowUp: item => step(item, -1),
  Home: () => items()[0]?.focus(),
  End: () => items().at(-1)?.focus(),
};

const rowKeys = {
  ArrowRight: (row, item) => {
    if (row.kind === "maps" && !levels.has(row.path)) row.toggle();
    else if (row.kind === "maps") item.querySelector(".below .item:not(.adding)")?.focus();
    else item.querySelector(".chip")?.focus();
  },
  ArrowLeft: (row, item) => {
    if (row.kind === "maps" && levels.has(row.path)) row.shut();
    else item.parentElement.closest(".item")?.focus();
  },
  Enter: row => row.enter(),
  F2: row => row.enter(),
  " ": row => row.enter(),
  Delete: row => row.remove?.(),
  Backspace: row => row.remove?.(),
  "+": row => row.kind === "counters" && row.count(1n),
  "-": row => row.kind === "counters" && row.count(-1n),
  n: row => addTo(row.kind === "maps" ? row.open() : row.level),
};

function discard(chip) {
  if (!chip.discard) return;
  (chip.nextElementSibling || chip.previousElementSibling || chip.closest(".item")).focus();
  chip.discard();
}

const chipKeys = {
  ArrowRight: chip => chip.nextElementSibling?.focus(),
  ArrowLeft: chip => (chip.previousElementSibling || chip.closest(".item")).focus(),
  Escape: chip => chip.closest(".item").focus(),
  Enter: chip => chip.act?.(),
  " ": chip => chip.act?.(),
  Delete: discard,
  Backspace: discard,
};

function press(event) {
  if (event.altKey || event.ctrlKey || event.metaKey || event.target.closest("button, input, select, textarea")) return;
  const chip = event.target.closest(".chip"), item = event.target.closest(".item");
  if (!item?.row) return;
  const own = chip ? chipKeys[event.key] : rowKeys[event.key];
  if (!own && !moves[event.key]) return;
  event.preventDefault();
  if (own) own(chip || item.row, item);
  else moves[event.key](item);
}

// One row alone is reached by the tab key: the one that had the focus last.
function hold(event) {
  const item = event.target.closest(".item");
  if (!item?.row) return;
  for (const other of tree.querySelectorAll(".item[tabindex='0']")) other.setAttribute("tabindex", -1);
  item.setAttribute("tabindex", 0);
}

function find() {
  wanted = at("find").value.toLowerCase();
  for (const level of levels.values()) {
    level.limit = PART;
    level.draw();
  }
}

// ---- the beginning

tree.addEventListener("keydown", press);
tree.addEventListener("focusin", hold);
at("find").addEventListener("input", find);
at("find").addEventListener("keydown", event => {
  if (event.key === "ArrowDown" || event.key === "Enter") {
    event.preventDefault();
    items()[0]?.focus();
  }
});
at("add").addEventListener("click", () => addTo(levels.get("")));
at("again").addEventListener("click", connect);
at("rivals-next").addEventListener("click", () => attempt(showNextRival));
at("login").addEventListener("submit", enter);
document.addEventListener("keydown", event => {
  if (event.target.closest?.("input, select, textarea")) return;
  const undo = at("toast").hidden ? null : at("toast").querySelector("button");
  const isControlled = event.ctrlKey || event.metaKey;
  if (event.key === "/" && !isControlled) at("find").focus();
  else if (event.key === "z" && isControlled && undo) undo.click();
  else return;
  event.preventDefault();
});
document.addEventListener("visibilitychange", () => {
  if (document.hidden) return;
  if (socket) follow();
  else connect();
});
addEventListener("online", connect);
setInterval(() => {
  if (socket && !isUnseen()) loadCounts().catch(ignoreRefusal);
}, LOOK);

new Level("", tree);
connect();
}
"##
        )
    };
}

pub(crate) use page;
