// What each page begins with.
ghost use Rattle.std.specs.Prelude.{◌≡◌, ◌++◌, OnOk};
ghost use Rattle.report_chart.specs.Head.{document_head, style, legend, page_head};

use crate::push::push;
use std::alloc::AllocError;

const DOCUMENT_HEAD: &[u8] = b"<!DOCTYPE html>
<html lang=en>
<meta charset=utf-8>
<meta name=viewport content=\"width=device-width\">
<title>RAIM availability</title>
";

const STYLE: &[u8] = b"<style>
body{margin:1em auto;padding:0 1em;max-width:100em;background:#fff;color:#111;font:1em/1.4 system-ui,sans-serif}
h1{font-size:1.4em;margin:0}
h2{font-size:1.2em;margin:2em 0 0;padding-top:.5em;border-top:1px solid #999}
p{margin:.6em 0;overflow-wrap:anywhere}
time,.key span{white-space:nowrap}
i,.band li{box-sizing:border-box;print-color-adjust:exact;-webkit-print-color-adjust:exact}
.a{height:2em;background:#0072B2}
.u{height:4em;background:repeating-linear-gradient(45deg,#D55E00 0 5px,#fff 5px 8px);border:solid #D55E00;border-width:1px 0 1px 1px;z-index:1}
.d{height:3em;background:radial-gradient(#111 1.5px,transparent 2px) 0 0/6px 6px #F0E442;box-shadow:0 0 0 1px #111;z-index:2}
i{display:inline-block;width:4em;margin-right:1em;font-size:.4em}
.key span{margin-right:.6em}
.band,.hours{position:relative;margin:0;padding:0;list-style:none}
.band{height:4.2em;overflow:hidden;border-bottom:1px solid #111}
.band li{position:absolute;bottom:0;left:min(calc(var(--x)*.001%),100% - 1px);width:calc(var(--w)*.001%);min-width:1px}
.hours{height:1.5em;font-size:.8em}
.hours li{position:absolute;left:calc(var(--x)*.001%);width:2em;margin-left:-1em;text-align:center}
.hours li::before{content:\"\";position:absolute;left:1em;top:0;height:.3em;border-left:1px solid #111}
.utc{margin:0;font-size:.8em;text-align:center}
table{border-collapse:collapse;margin:.6em 0;font-variant-numeric:tabular-nums}
td,th{padding:.15em .4em;text-align:left;vertical-align:top;border-bottom:1px solid #ccc}
td~th{background:#ddd}
td~th::after{content:\" longest\"}
@media(max-width:40em){
.hours:has(li:nth-child(13)) li:not(:nth-child(3n+1)){font-size:0}
.gaps,.gaps tbody{display:block}
.gaps tr{display:grid;grid-template-columns:1fr 1fr 1fr;border-bottom:1px solid #ccc}
.gaps td,.gaps th{border:0}
.gaps tr>:last-child{grid-column:2/4}
}
</style>
";

const LEGEND: &[u8] = b"<h1>RAIM availability</h1>
<p>Where the receiver's own check of the integrity of GPS (RAIM) is available. All times are UTC.
<p class=key><span><i class=a></i>Available</span><span><i class=u></i>Unavailable</span><span><i class=d></i>Undecided</span>
";

fn push_document_head(text: &mut Vec<u8>) -> Result<(), AllocError>
    ensures { OnOk result (text.new.items ≡ text.old.items ++ document_head) }
{
    push(text, DOCUMENT_HEAD)
}

fn push_style(text: &mut Vec<u8>) -> Result<(), AllocError>
    ensures { OnOk result (text.new.items ≡ text.old.items ++ style) }
{
    push(text, STYLE)
}

fn push_legend(text: &mut Vec<u8>) -> Result<(), AllocError>
    ensures { OnOk result (text.new.items ≡ text.old.items ++ legend) }
{
    push(text, LEGEND)
}

pub(crate) fn push_head(text: &mut Vec<u8>) -> Result<(), AllocError>
    ensures { OnOk result (text.new.items ≡ text.old.items ++ page_head) }
{
    push_document_head(text)?;
    push_style(text)?;
    push_legend(text)
}
