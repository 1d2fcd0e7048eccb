//! The script of a page, which sorts, searches and filters, and shows the reason of a request.

/// The script, in its element.
pub const SCRIPT: &str = r##"<script>
"use strict";
(function () {
  var d = document, at = function (id) { return d.getElementById(id); };
  var body = at("all").tBodies[0], rows = Array.from(body.rows);
  var heads = Array.from(at("all").tHead.rows[0].cells);
  var tip = at("tip"), shown = null, touched = false;
  var find = at("find"), mark = at("mark"), load = at("load"), by = at("by");

  // What a row is sorted by: the number of a cell, or its text.
  function key(row, column) {
    var cell = row.cells[column], value = cell.getAttribute("data-v") || cell.textContent;
    return /^[0-9]+$/.test(value) ? +value : value.toLowerCase();
  }
  function sort(column, down) {
    rows.slice().sort(function (a, b) {
      var x = key(a, column), y = key(b, column);
      return x === y ? key(a, 0) - key(b, 0) : (x < y ? -1 : 1) * (down ? -1 : 1);
    }).forEach(function (row) { body.appendChild(row); });
    heads.forEach(function (head, i) {
      if (i === column) head.setAttribute("aria-sort", down ? "descending" : "ascending");
      else head.removeAttribute("aria-sort");
    });
  }
  function isDown(head) { return head.className.indexOf("down") >= 0; }
  function option(select, value, text) {
    var it = d.createElement("option");
    it.value = value;
    it.textContent = text.replace(/\s+/g, " ").trim();
    select.appendChild(it);
  }
  heads.forEach(function (head, column) {
    var button = d.createElement("button");
    button.type = "button";
    button.className = "sort";
    button.textContent = head.textContent;
    option(by, column, head.textContent);
    head.textContent = "";
    head.appendChild(button);
    button.addEventListener("click", function () {
      var sorted = head.getAttribute("aria-sort");
      sort(column, sorted ? sorted === "ascending" : isDown(head));
    });
  });
  by.addEventListener("change", function () { sort(+by.value, isDown(heads[by.value])); });

  Array.from(d.querySelectorAll(".key li")).forEach(function (item) {
    option(mark, item.firstChild.className, item.textContent);
  });
  Array.from(d.querySelectorAll("#timeline h3")).forEach(function (heading) {
    var text = heading.textContent.replace(heading.querySelector("small").textContent, "");
    option(load, heading.getAttribute("data-v"), text);
  });
  function isFound(row, words) {
    var text = row.textContent.toLowerCase();
    return (!mark.value || row.cells[4].firstChild.className === mark.value)
      && (!load.value || row.cells[1].textContent === load.value)
      && words.every(function (word) { return text.indexOf(word) >= 0; });
  }
  function filter() {
    var words = find.value.toLowerCase().split(/\s+/), count = 0, sent = 0;
    rows.forEach(function (row) {
      row.hidden = !isFound(row, words);
      if (!row.hidden) { count++; sent += key(row, 6); }
    });
    var kilobytes = (sent / 1000).toFixed(1);
    at("count").textContent = count + " of " + rows.length + " requests, " + kilobytes + " kB sent";
  }
  [find, mark, load].forEach(function (field) { field.addEventListener("input", filter); });
  at("tools").hidden = false;
  if (at("hint")) at("hint").hidden = false;
  filter();

  // The reason of a request of the timeline, beside it.
  function hide() { tip.hidden = true; shown = null; }
  function line(text) {
    var p = d.createElement("p");
    p.textContent = text;
    tip.appendChild(p);
  }
  function show(a) {
    var row = at(a.hash.slice(1)), box, left;
    if (!row || shown === a) return;
    tip.textContent = "";
    line(row.cells[2].textContent);
    line(row.cells[4].textContent + ", " + row.cells[6].textContent + " sent");
    line(row.querySelector("summary").textContent);
    tip.hidden = false;
    shown = a;
    box = a.getBoundingClientRect();
    left = Math.max(8, Math.min(box.left, d.documentElement.clientWidth - tip.offsetWidth - 8));
    tip.style.left = left + scrollX + "px";
    tip.style.top = box.bottom + scrollY + 6 + "px";
  }
  function open(a, e) {
    if (touched) {
      e.preventDefault();
      touched = false;
      a.focus();
      show(a);
      return;
    }
    find.value = mark.value = load.value = "";
    filter();
    hide();
    at(a.hash.slice(1)).querySelector("details").open = true;
  }
  function go(links, i, e) {
    var to = { ArrowRight: i + 1, ArrowLeft: i - 1, Home: 0, End: links.length - 1 }[e.key];
    if (e.key === "Escape") hide();
    if (!links[to]) return;
    e.preventDefault();
    links[i].tabIndex = -1;
    links[to].tabIndex = 0;
    links[to].focus();
  }
  Array.from(d.querySelectorAll(".lane")).forEach(function (lane) {
    var links = Array.from(lane.querySelectorAll("a"));
    links.forEach(function (a, i) {
      var cells = at(a.hash.slice(1)).cells;
      a.tabIndex = i ? -1 : 0;
      a.setAttribute("aria-label", cells[4].textContent + ", " + cells[2].textContent);
      a.addEventListener("pointerdown", function (e) { touched = e.pointerType !== "mouse" && shown !== a; });
      a.addEventListener("mouseenter", function () { if (!touched) show(a); });
      a.addEventListener("mouseleave", function () { if (!touched) hide(); });
      a.addEventListener("focus", function () { show(a); });
      a.addEventListener("blur", hide);
      a.addEventListener("click", function (e) { open(a, e); });
      a.addEventListener("keydown", function (e) { go(links, i, e); });
    });
  });
})();
</script>"##;
