//! How a page looks.
use std::alloc::AllocError;
use svg_charts::Markup;

/// Adds the style sheet.
pub(crate) fn put_style(markup: &mut Markup) -> Result<(), AllocError> {
    markup.put(
        ":root{color-scheme:light dark;--paper:#fbfcfd;--card:#fff;--ink:#1a2027;--quiet:#5a6572;--line:#dde2e8;--grid:#eceff3;",
    )?;
    markup.put(
        "--blue:#2b6cd4;--pale:#bcd3f6;--deep:#0a2d6b;--good:#1d7a46;--warn:#9a6200;--bad:#bb2d23}",
    )?;
    markup.put(
        "@media(prefers-color-scheme:dark){:root{--paper:#12161b;--card:#1a2027;--ink:#e7ebf0;--quiet:#9aa6b4;--line:#313a45;--grid:#262e37;",
    )?;
    markup.put(
        "--blue:#5b95ee;--pale:#2c466f;--deep:#d3e3ff;--good:#58c486;--warn:#e0a63a;--bad:#f07a6e}}",
    )?;
    markup.put(
        "*{box-sizing:border-box}body{margin:0 auto;max-width:1480px;padding:1.2rem clamp(.7rem,2.5vw,2rem) 3rem;background:var(--paper);color:var(--ink);font:15px/1.45 system-ui,-apple-system,\"Segoe UI\",Roboto,\"Noto Sans\",sans-serif;font-variant-numeric:tabular-nums}",
    )?;
    markup.put(
        "h1{font-size:1.6rem;margin:.2rem 0 1rem;overflow-wrap:anywhere}h2{font-size:1.15rem;margin:0 0 .3rem}h3{font-size:1rem;margin:1.2rem 0 .4rem}",
    )?;
    markup.put(
        "section{background:var(--card);border:1px solid var(--line);border-radius:10px;padding:1rem clamp(.6rem,1.6vw,1.3rem);margin:1rem 0}",
    )?;
    markup.put(
        ".note,.key{color:var(--quiet);font-size:.86rem;margin:0 0 .7rem;max-width:75ch}.key{display:flex;flex-wrap:wrap;gap:.2rem 1.1rem;max-width:none}.key span{display:inline-flex;align-items:center;gap:.4rem}",
    )?;
    put_tiles(markup)?;
    put_tables(markup)?;
    put_bars(markup)?;
    put_drawing(markup)?;
    put_narrow(markup)?;
    put_paper(markup)
}

// The tiles at the head.
fn put_tiles(markup: &mut Markup) -> Result<(), AllocError> {
    markup.put(
        ".tiles{display:grid;grid-template-columns:repeat(auto-fit,minmax(150px,1fr));gap:.7rem;margin:0}.tile{background:var(--card);border:1px solid var(--line);border-radius:10px;padding:.6rem .9rem}",
    )?;
    markup.put(
        ".tile p{margin:0;color:var(--quiet);font-size:.83rem}.tile .large{font-size:1.35rem;font-weight:650;color:var(--ink);overflow-wrap:anywhere}.tile.bad .large{color:var(--bad)}.tile.good .large{color:var(--good)}",
    )
}

// The tables.
fn put_tables(markup: &mut Markup) -> Result<(), AllocError> {
    markup.put(
        ".scroll{overflow-x:auto;margin:0}table{border-collapse:collapse}table.wide{width:100%}th,td{text-align:left;padding:.3rem .6rem;vertical-align:top}thead th{font-weight:500;color:var(--quiet);font-size:.82rem;border-bottom:1px solid var(--line);white-space:nowrap;vertical-align:bottom}",
    )?;
    markup.put(
        ".wide>tbody>tr{border-bottom:1px solid var(--line)}.n{text-align:right;white-space:nowrap}small{display:block;color:var(--quiet);font-size:.78rem}tbody th{font-weight:600;white-space:nowrap}td[data-column=to_spare],td[data-column=left]{font-weight:650}small{font-weight:400}.yes{color:var(--good);white-space:nowrap}.no{color:var(--bad);font-weight:600;white-space:nowrap}",
    )?;
    markup.put(
        ".why{margin:.2rem 0 .3rem;max-width:80ch;font-size:.9rem}summary{cursor:pointer;color:var(--quiet);font-size:.82rem;width:fit-content}summary:hover{color:var(--ink)}#inputs summary{font-size:.95rem}.hops{margin:.3rem 0;font-size:.86rem;background:var(--card)}.hops td,.hops th{padding:.12rem .7rem .12rem 0}.hops tbody tr{border-bottom:1px solid var(--grid)}",
    )?;
    markup.put(
        "td[data-column=written]{min-width:16rem;font-size:.86rem;color:var(--quiet)}em{font-style:normal;font-size:.78rem;border:1px solid var(--warn);color:var(--warn);border-radius:4px;padding:0 .3rem}.pair{display:inline-block;margin-left:.7rem}",
    )
}

// The bars.
fn put_bars(markup: &mut Markup) -> Result<(), AllocError> {
    markup.put(
        "th.bar{width:46%}td.bar>svg{display:block;overflow:visible}.axis{display:block;overflow:visible}.axis text{fill:var(--quiet);font-size:11px}",
    )?;
    markup.put("#requests td.bar>svg,#packets td.bar>svg{background:var(--lines)}")?;
    markup.put(
        ".promised{fill:var(--blue);background:var(--blue)}.spare{fill:var(--pale);background:var(--pale)}.wanted{fill:var(--ink);background:var(--ink)}.worst{fill:var(--deep);background:var(--deep)}.offered{fill:none;stroke:var(--bad);stroke-width:1.5;stroke-dasharray:4 3}",
    )?;
    markup.put(
        ".k{display:inline-block;width:22px;height:12px}.k.spare{height:6px}.k.wanted{width:3px;height:16px}.k.worst{height:4px}.k.offered{border:1.5px dashed var(--bad)}.packet{fill:var(--blue)}.limit{fill:var(--bad)}.rest{fill:var(--grid)}.work{fill:var(--blue)}.work.busy{fill:var(--warn)}.work.full{fill:var(--bad)}",
    )?;
    markup.put(
        ".levels div{display:grid;grid-template-columns:8.5rem 1fr 4.8rem;align-items:center;gap:.6rem}.levels span{text-align:right;white-space:nowrap;font-size:.86rem}.levels b,.users b,.why b{font-weight:400}.levels .room{text-align:left;color:var(--quiet)}.share>th{padding-left:1.6rem;font-weight:400}.share>th::before{content:\"└ \";color:var(--quiet)}.share>td[data-column=ends]{color:var(--quiet)}.load{white-space:nowrap}.load.busy{color:var(--warn)}.load.full,.load.refuses{color:var(--bad);font-weight:600}",
    )
}

// The drawing of the network.
fn put_drawing(markup: &mut Markup) -> Result<(), AllocError> {
    markup.put(
        ".net{display:block;width:100%;height:auto;margin:0 auto}.net text{fill:var(--ink);font-size:13px}.node{fill:var(--paper);stroke:var(--quiet);stroke-width:1.2}.net .name{font-weight:600}.under{fill:var(--card)}.link{stroke:var(--quiet)}.link.head{fill:var(--quiet);stroke:none}.link.busy{stroke:var(--warn)}.link.busy.head{fill:var(--warn);stroke:none}",
    )?;
    markup.put(
        ".link.full,.link.refuses{stroke:var(--bad)}.link.full.head,.link.refuses.head{fill:var(--bad);stroke:none}.net .linkname,.net .load{font-size:12px;paint-order:stroke;stroke:var(--card);stroke-width:5px;stroke-linejoin:round}.net .linkname{font-weight:600}.for-narrow{display:none}",
    )
}

// A narrow page, where a row of a table becomes a block of its own.
fn put_narrow(markup: &mut Markup) -> Result<(), AllocError> {
    markup.put(
        "@media screen and (max-width:760px){.for-wide{display:none}.for-narrow{display:block}.flow,.flow>tbody,.flow>thead,.flow>thead>tr{display:block}.flow>thead th:not(.bar){display:none}#links .flow>thead{display:none}.flow>thead th.bar{display:block;width:auto}",
    )?;
    markup.put(
        ".flow>tbody>tr{display:grid;grid-template-columns:repeat(4,minmax(0,1fr));padding:.45rem 0}.flow>tbody>tr>*{padding:.1rem .2rem}.flow>tbody>tr>th{grid-column:span 2;white-space:normal;overflow-wrap:anywhere}.flow>tbody>tr>.bar{grid-column:1/-1;order:1}.flow>tbody>tr>td{order:2}.flow td.n{text-align:left}.flow>tbody>tr>td[data-column=verdict],.flow>tbody>tr>td.loaded{text-align:right;grid-column:span 2;order:0}.flow>tbody>tr>td[data-column=tight],#links td[data-column=ends]{grid-column:1/-1}td[data-column=tight]:empty{display:none}#packets td[data-column=arrived]{grid-column:span 2;order:0!important;text-align:right}",
    )?;
    markup.put(
        ".flow>tbody>tr>td.n::before,#links td.users::before{display:block;color:var(--quiet);font-size:.74rem;font-weight:400}td[data-column=wanted]::before{content:\"wanted\"}td[data-column=promised]::before{content:\"promised\"}td[data-column=to_spare]::before{content:\"to spare\"}td[data-column=worst]::before{content:\"worst\"}",
    )?;
    markup.put(
        "td[data-column=tight]::before{content:\"tight link \";color:var(--quiet);font-size:.82rem}td[data-column=arrived]::before{content:\"packets arrived\"}td[data-column=least]::before{content:\"shortest\"}td[data-column=left]::before{content:\"left\"}#links td[data-column=long_run]::before{content:\"long run\"}#links td[data-column=buffer_free]::before{content:\"buffer free\"}#links td[data-column=buffer]::before{content:\"of\"}#links td.users::before{content:\"accepted\"}.levels div{grid-template-columns:7rem 1fr 4.4rem}.share>th{padding-left:.2rem}.share>td[data-column=ends]{display:none}}",
    )
}

// Paper: light colours, the heads of tables on each sheet, and all that is closed on a screen.
fn put_paper(markup: &mut Markup) -> Result<(), AllocError> {
    markup.put(
        "@media print{@page{margin:12mm}:root{color-scheme:light;--paper:#fff;--card:#fff;--ink:#111;--quiet:#4d5763;--line:#c9d0d8;--grid:#dfe4ea;--blue:#2b6cd4;--pale:#bcd3f6;--deep:#0a2d6b;--good:#1d7a46;--warn:#9a6200;--bad:#bb2d23}",
    )?;
    markup.put(
        "html{font-size:12px}body{max-width:none;padding:0;font-size:11px}section{border:0;border-radius:0;padding:.4rem 0;margin:.5rem 0}h2,h3,.note,.key,#inputs summary{break-after:avoid}thead{display:table-header-group}tr,figure,.tile{break-inside:avoid}.flow>tbody>tr>*,thead th{padding:.22rem .4rem}.scroll{overflow:visible}.net{min-width:0!important}",
    )?;
    markup.put(
        "details::details-content{content-visibility:visible;block-size:auto}summary{list-style:none;width:auto}.hops small{display:inline;padding-left:.3rem}summary::-webkit-details-marker{display:none}th.bar{width:34%}.levels div{grid-template-columns:6.4rem 1fr 4.2rem}*{print-color-adjust:exact;-webkit-print-color-adjust:exact}}",
    )
}
