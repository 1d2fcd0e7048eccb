//! The style of a page.

/// The style, in its element.
pub const STYLE: &str = r##"<style>
:root{color-scheme:light dark;--ground:#fff;--ink:#1b1b19;--soft:#5c5b56;--line:#dcdad2;--wash:#f5f4ef;
 --bad:#a8380b;--badwash:#f6d9c9;--good:#12627a;--goodwash:#cfe5ec;--need:#8d8b83;--needwash:#e6e4dc;
 --on:#fff}
@media (prefers-color-scheme:dark){
:root{--ground:#16171a;--ink:#ebe9e3;--soft:#a9a79f;--line:#3a3b3f;--wash:#202126;--bad:#ff9a66;
 --badwash:#5b2f1a;--good:#6fc3dc;--goodwash:#1d4350;--need:#8a8880;--needwash:#3b3a38;--on:#16171a}
}
*{box-sizing:border-box}
html{-webkit-text-size-adjust:100%}
body{margin:0;background:var(--ground);color:var(--ink);
 font:15px/1.45 -apple-system,"Segoe UI",Roboto,"Helvetica Neue","Liberation Sans",Arial,sans-serif;
 font-variant-numeric:tabular-nums;overflow-wrap:anywhere}
header,main,footer{max-width:1200px;margin:0 auto;padding:0 28px}
code,pre,bdi{unicode-bidi:isolate;direction:ltr;overflow-wrap:anywhere}
code,pre{font:.88em/1.45 ui-monospace,SFMono-Regular,Menlo,Consolas,"Liberation Mono",monospace}
a{color:inherit}
:focus-visible{outline:2px solid var(--good);outline-offset:2px}
.skip{position:absolute;left:-99em}
.skip:focus{left:8px;top:8px;background:var(--ground);padding:6px 10px;z-index:3}
header{padding-top:26px}
.from{margin:0;color:var(--soft)}
.from b{color:var(--ink)}
h1{font-size:30px;line-height:1.2;font-weight:600;letter-spacing:-.01em;margin:4px 0 6px;text-wrap:balance}
h1 bdi{font-weight:600}
h2{font-size:20px;line-height:1.25;font-weight:600;margin:0 0 3px}
h3{font-size:15px;font-weight:600;margin:16px 0 2px}
h3 small{font-weight:400}
section{border-top:1px solid var(--ink);padding:14px 0 34px}
.lead{color:var(--soft);margin:0 0 14px;max-width:64em;text-wrap:pretty}
.warn{border-left:4px solid var(--bad);background:var(--wash);padding:8px 12px;margin:12px 0 0}
.soft,small{color:var(--soft)}
small{font-size:13px}
.three{display:grid;grid-template-columns:repeat(3,1fr);gap:36px;margin:22px 0 24px;padding:0;list-style:none}
.three strong{display:block;font-size:54px;line-height:1;font-weight:600;letter-spacing:-.03em;
 margin-bottom:10px;white-space:nowrap}
.three strong i{font-size:26px;font-style:normal;font-weight:400;letter-spacing:0;margin-left:5px;
 color:var(--soft)}
.three p{margin:6px 0 0;max-width:24em}
nav{display:flex;flex-wrap:wrap;gap:4px 22px;margin:0 0 12px;font-size:14px}
nav a{color:var(--soft);text-underline-offset:3px;padding:3px 0}
svg{display:block;overflow:hidden;forced-color-adjust:none}
.bar{width:100%;height:10px}
.bar+.bar{margin-top:3px}
.p{fill:var(--needwash)}
.q{fill:var(--need)}
.g{fill:var(--good)}
.w{fill:url(#hatch)}
.hb{fill:var(--bad)}
.hl{stroke:var(--ground);stroke-width:1.2}
.defs{position:absolute;width:0;height:0}
table{border-collapse:collapse;width:100%}
th,td{text-align:left;vertical-align:top;padding:8px 14px 8px 0;border-bottom:1px solid var(--line);
 font-weight:400}
th:last-child,td:last-child{padding-right:0}
thead th{font-size:13px;color:var(--soft);vertical-align:bottom;padding-top:0;
 border-bottom:1px solid var(--need)}
tfoot th,tfoot td{border-bottom:0;font-weight:600}
tfoot small{font-weight:400}
.n,.n button{text-align:right;white-space:nowrap}
thead th{overflow-wrap:normal}
.u code{font-size:.93em}
.first .u{width:19%}
.first tbody .u,.first tfoot .u{padding-left:22px;position:relative}
.first :is(th,td):nth-child(2){padding-right:26px}
.first .b{width:16%}
.first .now{width:22%}
.first .new{width:24%}
.first .s{width:14%}
.first tbody{counter-reset:r}
.first tbody .u:before{counter-increment:r;content:counter(r);position:absolute;left:0;color:var(--soft)}
.first .big{font-size:19px;font-weight:600;line-height:1.2}
.first .b .bar{margin-top:4px;height:12px}
.set{display:block;user-select:all}
.set+.set{margin-top:2px}
.first .s small{white-space:normal}
td small{display:block}
.when .u{width:24%}
.when .size{width:9%}
.when .live{width:13%;white-space:nowrap}
.when td.c{width:7.5%;white-space:nowrap}
.live small{display:inline!important}
.when .c b{font-weight:400}
.dot{display:inline-block;width:11px;height:11px;border:1.5px solid var(--good);border-radius:50%;
 margin-right:6px;vertical-align:-1px;forced-color-adjust:none}
.dot.half{background:linear-gradient(to right,var(--good) 50%,transparent 50%)}
.dot.full{border-color:var(--bad);background:var(--bad);border-radius:0}
.mult{display:grid;grid-template-columns:repeat(4,1fr);gap:28px;list-style:none;padding:0;margin:14px 0 18px}
.mult h3{margin:0 0 6px}
.mult p{margin:2px 0 9px}
.mult b{font-weight:600}
.wrong{list-style:none;padding:0;margin:0;columns:2;column-gap:40px}
.wrong>li{break-inside:avoid;padding:10px 0;border-top:1px solid var(--line)}
.wrong p{margin:0 0 5px}
.wrong .why{margin:5px 0 0;color:var(--soft)}
dl.d{margin:0;display:grid;grid-template-columns:7.4em 1fr;gap:2px 10px}
dl.d dt{color:var(--soft);font-size:13px;line-height:1.65}
dl.d dd{margin:0}
dl.d dt:before{display:inline-block;width:1.1em;font-weight:700;content:"\2212"}
dl.d .to:before{content:"+"}
dl.d .was code{color:var(--bad)}
dl.d .be code{color:var(--good)}
.two .u{width:34%}
.two .c1{width:33%}
.key{list-style:none;display:flex;flex-wrap:wrap;gap:5px 20px;padding:0;margin:0 0 6px;font-size:14px}
.key i{color:var(--soft);font-style:normal}
.key b,.lane b,.all b{display:inline-block;min-width:18px;height:18px;line-height:15px;text-align:center;
 font-size:12px;font-weight:700;border:1.5px solid;border-radius:3px;color:var(--ink);
 border-color:transparent;vertical-align:1px}
.F b{background:var(--good);color:var(--on);border-color:var(--good)}
.V b{border-color:var(--good);color:var(--good)}
.B b{border-color:var(--good);border-style:dotted;color:var(--good)}
.N b{background:var(--bad);color:var(--on);border-color:var(--bad);border-radius:0}
.S b,.Y b{border-color:var(--bad);color:var(--bad);border-radius:0}
.M b{background:var(--needwash);border-color:var(--needwash)}
.C b,.R b,.U b{border-color:var(--need)}
.E b,.A b{color:var(--soft);border-bottom-color:var(--line)}
.lane{list-style:none;display:flex;flex-wrap:wrap;align-items:flex-end;margin:0;padding:0;gap:8px 3px}
.lane a{display:flex;flex-direction:column;justify-content:flex-end;width:18px;text-decoration:none;
 position:relative;padding-top:3px}
.lane svg{width:12px;margin:0 auto 2px;background:var(--need)}
.lane .F svg,.lane .V svg,.lane .B svg{background:var(--good)}
.lane .N svg,.lane .S svg,.lane .Y svg{
 background:repeating-linear-gradient(135deg,var(--bad) 0 2.4px,var(--ground) 2.4px 3.4px)}
.lane .E svg,.lane .A svg{background:var(--needwash);border:1px solid var(--need)}
.lane a:hover b,.lane a:focus b{outline:2px solid var(--ink)}
#tip{position:absolute;z-index:2;max-width:min(420px,92vw);background:var(--ink);color:var(--ground);
 padding:9px 12px;border-radius:4px;font-size:14px}
#tip p{margin:0}
.tools{display:flex;flex-wrap:wrap;gap:10px 18px;align-items:end;margin:0 0 12px;padding:10px 12px;
 background:var(--wash)}
.tools label{font-size:13px;color:var(--soft);display:flex;flex-direction:column;gap:3px}
.tools input,.tools select{font:inherit;font-size:15px;color:var(--ink);background:var(--ground);
 border:1px solid var(--need);border-radius:3px;padding:5px 8px;min-height:34px;max-width:100%}
.tools input{width:17em}
.tools select{width:15em}
.tools output{padding-bottom:6px}
[hidden]{display:none!important}
.sort{font:inherit;color:inherit;background:none;border:0;padding:4px 0;cursor:pointer;
 text-decoration:underline dotted;text-underline-offset:3px}
[aria-sort=ascending] .sort:after{content:" \25B2"}
[aria-sort=descending] .sort:after{content:" \25BC"}
.all{font-size:14px}
.all th,.all td{padding:5px 12px 5px 0}
.all th:last-child,.all td:last-child{padding-right:0}
.all th:nth-child(3){width:25%}
.all th:nth-child(5){width:17%}
.all th:nth-child(6){width:35%}
.all th:nth-child(-n+2),.all th:nth-child(4){width:4%}
.all thead th{white-space:nowrap}
.all td:nth-child(n+7){text-align:right;white-space:nowrap}
.all th code{font-size:.93em}
.all summary{cursor:pointer;list-style-position:outside;margin-left:14px}
.all pre{margin:4px 0 4px 14px;white-space:pre-wrap;font-size:12.5px;color:var(--soft)}
.all tr:target{background:var(--goodwash)}
footer{border-top:1px solid var(--ink);padding-top:12px;padding-bottom:40px;color:var(--soft);font-size:14px}
footer p{max-width:60em;margin:0 0 6px}
.plain{margin:14px 0 0}
@media screen and (max-width:700px){
h1{font-size:23px}
.three{grid-template-columns:1fr;gap:20px;margin:18px 0 24px}
.three strong{font-size:44px;margin-bottom:7px}
.three p{max-width:none}
.mult{grid-template-columns:1fr 1fr;gap:14px 22px}
.wrong{columns:1}
.tools label,.tools input{width:100%}
}
@media screen and (max-width:960px){
header,main,footer{padding-left:16px;padding-right:16px}
header{padding-top:16px}
thead{position:absolute;width:1px;height:1px;overflow:hidden;clip-path:inset(50%)}
table,tbody,tfoot{display:block;width:100%}
tr{display:grid;border-bottom:1px solid var(--line);padding:9px 0}
tbody th,tbody td,tfoot th,tfoot td{border:0!important;padding:1px 0;width:auto!important}
.u code{font-weight:600}
td:before{color:var(--soft);font-size:13px}
.first tr{grid-template-columns:1fr auto;gap:3px 12px}
.first .b,.first .now,.first .new{grid-column:1/-1}
.first tbody .r{order:1;white-space:nowrap;padding-right:0}
.first .b{order:2}
.first .now{order:3}
.first .new{order:4}
.first .s{order:5;grid-column:1/-1;text-align:left}
.first .now:before{content:"sent now"}
.first .new:before{content:"send instead"}
.first .s:before{content:"saves "}
.first .r:after{content:" requests";color:var(--soft);font-size:13px}
.first tfoot .r,.first tfoot .now,.first tfoot .new{display:none}
.first .s .big,.first .s small{display:inline}
.first .s small{margin-left:6px}
.when tr{grid-template-columns:repeat(4,1fr);gap:2px 6px}
.when .u,.when .do{grid-column:1/-1}
.when .live{grid-column:3/5}
.when .size{grid-column:1/3;text-align:left}
.when .size:before{content:"size "}
.when .live:before{content:"fresh for "}
.when .do:before{content:"send instead "}
.when .live small,.when .do code{display:inline}
.when td.c:before{display:block}
.when .c1:before{content:"in 1 h"}
.when .c2:before{content:"in 1 d"}
.when .c3:before{content:"in 1 w"}
.when .c4:before{content:"in 30 d"}
.when .do{order:1}
.when .do:empty{display:none}
.two tr{grid-template-columns:1fr 1fr;gap:2px 14px}
.two .u,.two .do{grid-column:1/-1}
.two .do:empty{display:none}
.two .c1:before{content:"browser";display:block}
.two .c2:before{content:"CDN";display:block}
.all tr{grid-template-columns:auto auto auto 1fr auto;gap:1px 9px}
.all tbody th,.all tbody td{padding:1px 0}
.all tbody th{order:-1;grid-column:1/-1}
.all th code{font-weight:600}
.all td:nth-child(1):before{content:"#"}
.all td:nth-child(2):before{content:"load "}
.all td:nth-child(6){order:1;grid-column:1/-1}
.all td:nth-child(8){display:none}
.lane a{width:22px}
.lane b{min-width:22px;height:22px;line-height:19px}
.lane svg{width:14px}
}
@media screen and (min-width:961px){
.narrow{display:none!important}
}
@media screen{
.first .u code,.when .u code,.two .u code{display:-webkit-box;-webkit-box-orient:vertical;
 -webkit-line-clamp:6;overflow:hidden}
}
@media print{
:root{--ground:#fff;--ink:#000;--soft:#444;--line:#bbb;--wash:#f5f4ef;--bad:#a8380b;--badwash:#f6d9c9;
 --good:#12627a;--goodwash:#cfe5ec;--need:#777;--needwash:#ddd;--on:#fff}
*{-webkit-print-color-adjust:exact;print-color-adjust:exact}
@page{margin:12mm}
body{font-size:8.5pt}
small,.key,.all,thead th,dl.d dt,footer{font-size:7.5pt!important}
.all pre{font-size:6.5pt}
h1{font-size:17pt}
h2{font-size:12pt}
.three strong{font-size:30pt}
.three strong i{font-size:14pt}
.first .big{font-size:10pt}
th,td{padding:4px 8px 4px 0}
.all th,.all td{padding:2px 7px 2px 0}
.tools,.skip,#tip,nav,#hint{display:none!important}
section{padding-bottom:16pt}
tr,.wrong>li,.lane li{break-inside:avoid}
h2,h3,.lead{break-after:avoid}
thead{display:table-header-group}
header,main,footer{padding-left:0;padding-right:0}
}
</style>"##;
