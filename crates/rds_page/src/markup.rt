//! The page's markup, around its style and its script.

macro_rules! with_markup {
    ($style:literal, $node:literal, $rows:literal, $panels:literal) => {
        concat!(
            r##"<!doctype html>
<html lang="en">
<head>
<meta charset="utf-8">
<meta name="viewport" content="width=device-width, initial-scale=1">
<meta name="color-scheme" content="light dark">
<title>rds</title>
<link rel="icon" href="data:image/svg+xml,%3Csvg xmlns='http://www.w3.org/2000/svg' viewBox='0 0 16 16'%3E
%3Cg fill='none' stroke='%234a6fd0' stroke-width='1.6'%3E%3Ccircle cx='6' cy='8' r='4.4'/%3E
%3Ccircle cx='10' cy='8' r='4.4'/%3E%3C/g%3E%3C/svg%3E">
<style>"##,
            $style,
            r##"</style>
</head>
<body>
<header>
<div>
<h1><span id="group">rds</span><small id="own"></small></h1>
<div id="state">
<p id="link" role="status"><span id="link-text">Connecting</span>
<button id="again" type="button" hidden>Try now</button></p>
<a id="copy" href="/snapshot" download="copy.rds" title="The document as a file, for a backup" hidden>Save a copy</a>
</div>
</div>
<div>
<p id="facts"></p>
<p id="tools" hidden>
<input id="find" type="search" placeholder="Find a key" aria-label="Find a key" autocomplete="off" spellcheck="false">
<button id="add" type="button">Add</button>
</p>
</div>
</header>
<p id="rivals" class="notice" hidden><span id="rivals-text"></span>
<button id="rivals-next" type="button">Show</button></p>
<p id="forked" class="notice" hidden></p>
<p id="apart" class="notice" hidden></p>
<p id="behind" class="notice" hidden>The node's file is older than what its replica has sent, as a backup is.
It takes no edits: docs/FAULTS.md, 'Back to a backup', tells how to go on.</p>
<p id="unwritable" class="notice" hidden>The node can't write its file, as where its disk is full.
It takes no edits until it can.</p>
<form id="login" hidden>
<h2>This node asks for a token</h2>
<p><input id="token" type="password" aria-label="Token" placeholder="Token" autocomplete="current-password" required>
<button type="submit" class="main">Enter</button></p>
<p id="login-note" class="note" role="alert"></p>
</form>
<main>
<ul id="tree" role="tree" aria-label="Document"></ul>
</main>
<footer id="keys" hidden>
<span><kbd>↑</kbd> <kbd>↓</kbd> move</span>
<span><kbd>→</kbd> <kbd>←</kbd> open, close</span>
<span><kbd>Enter</kbd> edit</span>
<span><kbd>Delete</kbd> delete</span>
<span><kbd>N</kbd> new</span>
<span><kbd>+</kbd> <kbd>−</kbd> count</span>
<span><kbd>/</kbd> find</span>
<span><kbd>Esc</kbd> give up</span>
</footer>
<p id="toast" role="status" hidden></p>
<noscript><p class="notice">This page shows the document by its script, which is switched off here.</p></noscript>
<script>"##,
            $node,
            $rows,
            $panels,
            r##"</script>
</body>
</html>
"##
        )
    };
}

pub(crate) use with_markup;
