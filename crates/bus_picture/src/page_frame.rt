//! What stands around the devices of a page: its head with the style, the filter, and the script that filters by text.

/// From the page's begin into its style.
pub(crate) const HEAD: &str = "\
<!DOCTYPE html>
<html lang=\"en\">
<head>
<meta charset=\"utf-8\">
<meta name=\"viewport\" content=\"width=device-width, initial-scale=1\">
<title>Devices of a board</title>
<style>
body { font: 14px/1.4 sans-serif; margin: 0; color: #111; background: #fff; }
header { position: sticky; top: 0; background: #f6f6f6; border-bottom: 1px solid #bbb; padding: .4em 1em; z-index: 1; }
h1 { font-size: 1em; display: inline; margin: 0 1em 0 0; }
form { display: inline; }
label { margin-right: .8em; white-space: nowrap; }
main { padding: .5em 1em 50vh; }
ul { list-style: none; margin: 0; padding-left: 1.4em; border-left: 1px dotted #bbb; }
main > ul { padding-left: 0; border: 0; }
ul:empty { display: none; }
li { scroll-margin-top: 4em; }
summary { cursor: pointer; padding: 0 .3em; width: fit-content; border-radius: 3px; }
i { color: #333; }
small { font-weight: bold; }
details[open] { border: 1px solid #888; border-radius: 4px; padding: .2em .5em; margin: .2em 0; }
p { margin: .2em 0 0; }
details p b { font-weight: normal; font-style: italic; }
li:target > details { outline: 3px solid #06c; }
:focus-visible { outline: 2px solid #06c; outline-offset: 1px; }
a { color: #024; padding: 0 .2em; border-radius: 3px; }
.bound > details > summary, label.bound, a.bound { background: #d5f0d5; }
.waiting > details > summary, label.waiting, a.waiting { background: #ffe28a; }
.failed > details > summary, label.failed, a.failed { background: #f5b5b5; }
.unmatched > details > summary, label.unmatched, a.unmatched { background: #dddddd; }
.disabled > details > summary, label.disabled, a.disabled { background: #fff; text-decoration: line-through; }
.early > details > summary, label.early, a.early { background: #cfe3f7; }
.cyclic { color: #b00; }
.out > details { display: none; }
";

/// From the style to the boxes of states.
pub(crate) const FILTER: &str = "\
</style>
</head>
<body>
<header>
<h1>Devices</h1>
<form onsubmit=\"return false\">
";

/// From the boxes of states to the devices.
pub(crate) const FIND: &str = "\
<label>find <input type=\"search\" id=\"find\" placeholder=\"path, driver, property\"></label>
</form>
<output id=\"count\"></output>
</header>
<main>
<ul>";

/// From the devices to the page's end. Without the script all but the text's filter works.
pub(crate) const END: &str = "\
</ul>
</main>
<script>
const items = [...document.querySelectorAll('main li[id]')];
const texts = items.map(item => item.firstElementChild.textContent.toLowerCase());
const find = document.getElementById('find');
function filter() {
  const words = find.value.toLowerCase().split(' ').filter(word => word);
  let count = 0;
  items.forEach((item, place) => {
    const fits = words.every(word => texts[place].includes(word));
    item.classList.toggle('out', !fits);
    if (fits) count += 1;
  });
  document.getElementById('count').textContent = words.length ? count + ' of ' + items.length : '';
}
function show() {
  const item = document.getElementById(location.hash.slice(1));
  if (!item || !item.id) return;
  item.classList.remove('out');
  item.firstElementChild.open = true;
  item.firstElementChild.firstElementChild.focus();
}
find.addEventListener('input', filter);
addEventListener('hashchange', show);
filter();
show();
</script>
</body>
</html>
";
