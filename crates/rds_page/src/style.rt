//! The page's style.

macro_rules! with_style {
    ($node:literal, $rows:literal, $panels:literal) => {
        with_markup!(
            r##"
:root {
  --paper: #f6f6f3; --card: #fff; --ink: #202328; --soft: #656b75; --faint: #9aa0a8;
  --line: #e4e4df; --tint: #f3f5f9; --chosen: #e8eefb; --accent: #3059c4; --on-accent: #fff;
  --number: #0f6b5c; --constant: #7a45b0; --warn: #8a5200; --warn-tint: #fdf4e1; --warn-line: #e6c48a;
  --bad: #b3261e; --good: #2c8a57; --flash: #fdf0b8;
  --keys: 17rem; --step: 1.25rem; --deep: 0;
}
@media (prefers-color-scheme: dark) {
  :root {
    --paper: #15171a; --card: #1c1f23; --ink: #e4e6ea; --soft: #9ba2ad; --faint: #6d747f;
    --line: #2c3036; --tint: #22262b; --chosen: #26324b; --accent: #8aa9f5; --on-accent: #10131a;
    --number: #6fcdb8; --constant: #c6a2ee; --warn: #f0c378; --warn-tint: #2e2718; --warn-line: #6b5527;
    --bad: #f2938c; --good: #64c48e; --flash: #4a4420;
  }
}
* { box-sizing: border-box; }
[hidden] { display: none !important; }
body {
  margin: 0 auto; max-width: 62rem; padding: 2rem 1.5rem 5rem;
  background: var(--paper); color: var(--ink);
  font: 15px/1.5 ui-sans-serif, system-ui, -apple-system, "Segoe UI", Roboto, "Noto Sans", sans-serif;
}
header { margin-bottom: 1.25rem; }
header > div {
  display: flex; flex-wrap: wrap; gap: .25rem 1.5rem; align-items: center; justify-content: space-between;
}
header p { margin: 0; }
#again { padding: 0 .5rem; }
h1 { margin: 0; font-size: 1.5rem; font-weight: 650; letter-spacing: -.015em; line-height: 1.25; }
h1 small { margin-left: .625rem; font-size: .9375rem; font-weight: 400; letter-spacing: 0; color: var(--soft); }
h1, #facts { overflow-wrap: anywhere; }
#facts { flex: 1 1 16rem; color: var(--soft); }
#state { display: flex; flex-wrap: wrap; gap: .25rem 1.25rem; align-items: center; }
#link { display: flex; gap: .5rem; align-items: center; color: var(--soft); }
#link::before { content: ""; width: .5rem; height: .5rem; border-radius: 50%; background: var(--faint); flex: none; }
#link.live::before { background: var(--good); }
#link.lost { color: var(--bad); }
#link.lost::before { background: var(--bad); }
#copy { color: var(--accent); text-decoration: none; border-radius: .25rem; }
#copy:hover { text-decoration: underline; }
#tools { display: flex; gap: .5rem; }
button, input, select, textarea {
  font: inherit; color: inherit; background: var(--card); border: 1px solid var(--line); border-radius: .375rem;
  padding: .1875rem .625rem; margin: 0;
}
button { cursor: pointer; white-space: nowrap; }
button:hover { border-color: var(--faint); }
button:disabled { opacity: .5; cursor: default; }
button.main { background: var(--accent); border-color: var(--accent); color: var(--on-accent); }
button.danger { background: var(--bad); border-color: var(--bad); color: var(--on-accent); }
input::placeholder { color: var(--faint); }
#find { width: 11rem; }
:focus-visible { outline: 2px solid var(--accent); outline-offset: 1px; }
ul { list-style: none; margin: 0; padding: 0; }
#tree {
  background: var(--card); border: 1px solid var(--line); border-radius: .625rem; padding: .375rem; min-height: 3rem;
}
#tree:empty { display: none; }
.item ul.below {
  margin-left: calc(.875rem + 1px); padding-left: calc(var(--step) - .875rem - 2px); border-left: 1px solid var(--line);
}
[aria-level="2"] { --deep: 1; }
[aria-level="3"] { --deep: 2; }
[aria-level="4"] { --deep: 3; }
[aria-level="5"] { --deep: 4; }
[aria-level="6"] { --deep: 5; }
[aria-level="7"] { --deep: 6; }
[aria-level="8"] { --deep: 7; }
.item { outline: none; }
.row {
  line-height: 1.5rem; display: grid; gap: .125rem .75rem; align-items: start; min-height: 2.125rem;
  grid-template-columns: minmax(4rem, calc(var(--keys) - var(--deep) * var(--step))) minmax(0, 1fr) auto;
  padding: .3125rem .5rem .3125rem 0; border-radius: .375rem;
}
.row:hover { background: var(--tint); }
.item:focus > .row, .item.used > .row { background: var(--chosen); }
.item:focus-visible > .row { box-shadow: inset 0 0 0 1.5px var(--accent); }
.key { display: flex; min-width: 0; }
.turn { flex: none; width: 1.75rem; height: 1.5rem; position: relative; }
.map > .row { cursor: pointer; }
.map > .row .turn::before {
  content: ""; position: absolute; left: .5625rem; top: .5rem; width: .375rem; height: .375rem;
  transform: rotate(-45deg); border: solid var(--soft); border-width: 0 1.5px 1.5px 0; transition: transform .12s;
}
.map[aria-expanded="true"] > .row .turn::before { transform: translateY(-1px) rotate(45deg); }
.name, .text { unicode-bidi: isolate; white-space: pre-wrap; overflow-wrap: anywhere; min-width: 0; }
.name { display: -webkit-box; -webkit-box-orient: vertical; -webkit-line-clamp: 2; overflow: hidden; }
.map > .row .name { font-weight: 600; }
.value { display: flex; flex-wrap: wrap; gap: .25rem .5rem; align-items: center; min-height: 1.5rem; }
.value > .text { display: -webkit-box; -webkit-box-orient: vertical; -webkit-line-clamp: 3; overflow: hidden; }
.item:focus > .row .value > .text, .item:focus > .row .name { -webkit-line-clamp: none; }
.number { color: var(--number); font-variant-numeric: tabular-nums; overflow-wrap: anywhere; }
.constant { color: var(--constant); font-style: italic; }
.quiet { color: var(--soft); }
.chips { display: flex; flex-wrap: wrap; gap: .25rem; min-width: 0; }
.chip {
  display: inline-flex; align-items: center; max-width: 100%; min-width: 0; height: 1.5rem; padding: 0 .5625rem;
  border: 1px solid var(--line); border-radius: .75rem; background: var(--tint); line-height: 1.2; outline-offset: 0;
}
.chip > span { overflow: hidden; text-overflow: ellipsis; white-space: pre; max-width: 22rem; padding: .125rem 0; }
.chip > button {
  border: 0; background: none; padding: 0 .0625rem 0 .3125rem; margin-right: -.1875rem;
  color: var(--faint); line-height: 1;
}
.chip > button:hover { color: var(--bad); }
.chip.act { cursor: pointer; }
.chip.act:hover { border-color: var(--faint); }
.rival { background: var(--warn-tint); border-color: var(--warn-line); cursor: pointer; }
.rival:hover { border-color: var(--warn); }
.badge { color: var(--warn); font-size: .8125rem; }
.count { display: inline-flex; align-items: center; gap: .375rem; }
.count button { padding: 0; width: 1.5rem; height: 1.5rem; line-height: 1; color: var(--soft); }
.count .number { min-width: 2rem; text-align: center; }
.acts { display: flex; gap: .125rem; opacity: 0; }
.acts button {
  border-color: transparent; background: none; padding: 0 .4375rem; height: 1.5rem; line-height: 1.2;
  color: var(--soft);
}
.acts button:hover { color: var(--ink); background: var(--card); border-color: var(--line); }
.row:hover > .acts, .item:focus > .row > .acts, .row:focus-within > .acts { opacity: 1; }
.used > .row > .acts { display: none !important; }
.panel { display: flex; flex-wrap: wrap; gap: .375rem; align-items: flex-start; width: 100%; max-width: 38rem; }
.panel textarea, .panel input { flex: 1 1 10rem; min-width: 0; }
.panel textarea { resize: none; overflow: hidden; }
.panel :is(select, input, textarea, button), .adding .key input { height: 2rem; padding: .1875rem .625rem; }
.panel select { color: var(--soft); padding: 0 .25rem 0 .375rem; }
.panel > .ask { flex: 1 1 100%; }
.note { flex: 1 1 100%; margin: 0; color: var(--bad); font-size: .875rem; }
.note:empty { display: none; }
.hides > .row .value > :not(.panel) { display: none; }
.adding .key input { width: 100%; }
.loose { padding: .3125rem .5rem .3125rem 1.75rem; color: var(--soft); }
.loose:focus-visible { outline: 1.5px solid var(--accent); outline-offset: -2px; border-radius: .375rem; }
.loose button { color: var(--accent); border-color: transparent; background: none; padding: 0; }
.loose button:hover { text-decoration: underline; }
.late { animation: late .4s; }
@keyframes late { 0%, 90% { opacity: 0; } }
.notice {
  display: flex; gap: .75rem; align-items: center; margin: 0 0 .75rem; padding: .375rem .5rem .375rem .875rem;
  background: var(--warn-tint); border: 1px solid var(--warn-line); border-radius: .625rem; color: var(--warn);
}
.notice > span { flex: 1; }
.notice button { background: none; border-color: var(--warn-line); }
#login { max-width: 26rem; margin: 12vh auto 0; }
#login h2 { font-size: 1.125rem; font-weight: 600; margin: 0 0 .75rem; }
#login p { display: flex; gap: .5rem; margin: 0 0 .5rem; }
#login input { flex: 1; min-width: 0; padding: .375rem .625rem; }
footer {
  display: flex; flex-wrap: wrap; gap: .25rem 1.25rem; margin: .875rem .25rem 0;
  color: var(--soft); font-size: .8125rem;
}
kbd {
  font: inherit; font-size: .75rem; padding: 0 .3125rem; border: 1px solid var(--line); border-radius: .25rem;
  background: var(--card);
}
#toast {
  position: fixed; left: 50%; bottom: 1.5rem; transform: translateX(-50%); margin: 0;
  width: max-content; max-width: calc(100vw - 2rem);
  display: flex; gap: 1rem; align-items: center; padding: .5rem 1rem; border-radius: .5rem;
  background: var(--ink); color: var(--paper); box-shadow: 0 .25rem 1rem #0004; overflow-wrap: anywhere;
}
#toast button { background: none; color: inherit; border-color: currentColor; flex: none; }
@media (hover: none) {
  .acts { display: none; }
  .item:focus > .row > .acts, .row:focus-within > .acts { display: flex; }
}
@media (max-width: 42rem) {
  :root { --keys: 11rem; --step: .875rem; }
  body { padding: 1rem .625rem 4.5rem; }
  #tools { width: 100%; margin-top: .25rem; }
  #find { flex: 1; }
  .row { grid-template-columns: minmax(4rem, calc(42vw - var(--deep) * var(--step))) minmax(0, 1fr); }
  .acts { grid-column: 1 / -1; justify-self: end; display: none; }
  .item:focus > .row > .acts, .row:focus-within > .acts { display: flex; }
  .used > .row { grid-template-columns: minmax(0, 1fr); }
  .used > .row > .value { padding-left: 1.375rem; }
  .turn { width: 1.375rem; }
  .map > .row .turn::before { left: .375rem; }
  .item ul.below { margin-left: .5625rem; padding-left: calc(var(--step) - .5625rem - 1px); }
  footer { display: none; }
}
@media (prefers-reduced-motion: reduce) { * { transition: none !important; animation: none !important; } }
"##,
            $node,
            $rows,
            $panels
        )
    };
}

pub(crate) use with_style;
