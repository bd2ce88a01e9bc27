//! What a page has before its body.

/// What is before the title.
pub const START: &str = "<!DOCTYPE html>\n<html lang=\"en\">\n<meta charset=\"utf-8\">\n<title>";

/// What is between the title and the body: how the page looks. There is no script.
pub const STYLE: &str = "</title>
<meta name=\"viewport\" content=\"width=device-width\">
<meta name=\"color-scheme\" content=\"light dark\">
<style>
:root { --back: #fff; --ink: #1b1f24; --pale: #f3f4f6; --link: #0b57a4; --taken: #19703a; --passed: #b3261e;
  --mark: #ffe9a8;
  --number: #07639d; --directive: #8a3a94; --comment: #5f6b76; --dead: #7a828b }
body { margin: 0 auto; max-width: 110em; padding: 1em; font: 1em/1.4 sans-serif; background: var(--back);
  color: var(--ink) }
h2 { font-size: 1em; margin: 1.5em 0 .5em; overflow-wrap: anywhere }
#command { margin-top: 0; font: .85em/1.4 monospace; padding: .5em .8em; background: var(--pale) }
h2[data-note]::after { content: attr(data-note); display: block; font-weight: normal; font-size: .9em;
  color: var(--comment) }
.code { counter-reset: line; font: .9em/1.5 monospace; tab-size: 4; white-space: pre-wrap; overflow-wrap: anywhere }
.entry { display: block; font: .9em/1.8 monospace }
.entry > a { color: var(--link); text-decoration: underline }
.code > div { display: flow-root; unicode-bidi: isolate; direction: ltr;
  padding-left: 5em }
.code > div::before { counter-increment: line; content: counter(line); float: left; width: 4em; margin-left: -5em;
  text-align: right; color: var(--comment) }
.code > div[data-note]::after { content: attr(data-note); display: block; white-space: pre-wrap;
  margin: .2em 0 .2em -.9em; padding: .2em .6em;
  border-left: .3em solid var(--passed); background: color-mix(in srgb, var(--passed) 12%, transparent) }
.code > div:hover { background: var(--pale) }
.beside { float: right; margin-left: 1em; font-size: .85em; line-height: 2.4; padding: 0 .8em }
.beside > summary { cursor: pointer }
.beside > summary::after { content: attr(data-note) }
.out { display: none }
body:has(> .beside[open]) { max-width: none }
body:has(> .beside[open]) .out { display: block; float: right; width: 50%; box-sizing: border-box; min-height: 1.5em;
  padding-left: .8em; border-left: 1px solid var(--comment) }
.out::before { content: attr(data-note) }
.dead, .dead :is(.comment, .number, .directive, .macro) { color: var(--dead) }
.dead { background: repeating-linear-gradient(135deg, transparent 0 6px, var(--pale) 6px 7px) }
.why { float: left; width: 5em; height: 1.5em; margin-left: -5em; position: relative }
.why:hover, .why:focus { outline: 2px solid var(--passed); outline-offset: -2px }
a { color: inherit; text-decoration: none }
.comment { color: var(--comment); font-style: italic }
.number { color: var(--number) }
.directive { color: var(--directive) }
.macro { color: var(--link); text-decoration: underline dotted; text-underline-offset: .2em }
.undefined { text-decoration: underline wavy var(--passed); text-underline-offset: .2em }
.taken::before, .passed::before { content: attr(data-note); margin-left: 2em; padding: 0 .5em; border-radius: .4em;
  font-style: normal }
.taken::before { color: var(--taken); background: color-mix(in srgb, var(--taken) 12%, transparent) }
.passed::before { color: var(--passed); background: color-mix(in srgb, var(--passed) 12%, transparent) }
.included { white-space: normal; margin: .2em 0 .2em 5em; padding-left: .6em; border-left: .3em solid var(--directive) }
.included > summary { cursor: pointer; font-family: sans-serif }
.included h2 { display: inline; margin: 0 }
.included h2::after { display: inline; margin-left: 1em }
.included > .code { font-size: 1em }
.code:target { background: none; outline: 2px solid var(--directive); outline-offset: 2px }
.code > div > details, .code > div > details > summary { display: inline }
.code > div > details::details-content { display: contents }
summary.macro { list-style: none; cursor: pointer }
summary.macro::-webkit-details-marker { display: none }
summary.macro::after { content: \"\\25b8\"; font-size: .7em; text-decoration: none; display: inline-block; opacity: .6 }
[open] > summary.macro::after { content: \"\\25be\" }
.steps { float: left; clear: both; width: 100%; box-sizing: border-box; margin: .2em 0; padding: .3em .6em;
  border-left: .3em solid var(--link);
  background: color-mix(in srgb, var(--link) 9%, transparent) }
details:not([open]) > .steps { display: none }
.steps > * { display: block; overflow-wrap: anywhere }
.steps > ::before { content: attr(data-note) }
.steps > a { color: var(--link) }
.direction { unicode-bidi: isolate-override }
.direction::before { content: attr(data-note); border: 1px solid var(--passed); font-size: .8em }
:target { background: var(--mark) }
:focus-visible { outline: 2px solid var(--link); outline-offset: 1px }
@media (prefers-color-scheme: dark) { :root { --back: #14171a; --ink: #e3e6ea; --pale: #22272c; --link: #8ab8f0;
  --taken: #6cc48a;
  --passed: #f2938c; --mark: #5c4a10; --number: #7fc6f5; --directive: #d8a1de; --comment: #98a3ad; --dead: #828b94 } }
@media print { .code > div { break-inside: avoid } .code > div::before { color: #000 }
  .beside:not([open]) { display: none }
  .included::details-content { content-visibility: visible; height: auto } }
</style>
<body>
";
