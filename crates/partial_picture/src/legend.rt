//! The colours of a drawing, and what its shapes mean.

use crate::picture::Shape;
use crate::pixels::Pixels;
use crate::svg::{push_shape, push_words};
use std::alloc::AllocError;

/// The colours are those of Okabe and Ito, which colour-blind readers can distinguish. Each goes with a
/// shape of its own.
pub(crate) const STYLE: &str = "<style>
text{font:11px ui-monospace,Menlo,Consolas,'DejaVu Sans Mono',monospace;fill:#1c2127}
.call{font-weight:bold}
.again,.number{font-size:9px;fill:#5b6570}
.number{text-anchor:middle;font-size:10px}
.paper{fill:#fff}
.grid{stroke:#e6e9ed}
.lane,.history{stroke:#98a2ad}
.history{stroke-width:2}
.row{stroke:#d5dae0}
.bar{fill:#eaf0f6;stroke:#7f8b98}
.unfinished{stroke-dasharray:5 3}
.cut{fill:none;stroke:#fff;stroke-width:4}
.mark{stroke:#1c2127}
.load{fill:#56b4e9}
.store{fill:#e69f00}
.won,.entry{fill:#d55e00}
.lost{fill:#fff;stroke:#d55e00;stroke-width:2}
.add{fill:#009e73}
.stem{stroke:#d55e00;stroke-dasharray:1 3}
.arrow{fill:none;stroke-width:2}
.overtook{stroke:#d55e00;stroke-dasharray:7 3}
.lent{stroke:#0072b2}
.overtook-head{fill:#d55e00}
.lent-head{fill:#0072b2}
.touch{stroke:#98a2ad;stroke-dasharray:2 2}
.touched{fill:#5b6570}
@media (prefers-color-scheme:dark){
text{fill:#e4e8ec}
.again,.number{fill:#a3adb8}
.paper{fill:#14181d}
.grid{stroke:#262c33}
.lane,.history{stroke:#6c7784}
.row{stroke:#333b44}
.bar{fill:#222a33;stroke:#8a96a3}
.cut{stroke:#14181d}
.mark{stroke:#e4e8ec}
.lost{fill:#14181d;stroke:#d55e00}
.lent{stroke:#56b4e9}
.lent-head{fill:#56b4e9}
.touched{fill:#a3adb8}
}
</style>
<defs>
<marker id=\"overtook\" viewBox=\"0 0 10 10\" refX=\"8\" refY=\"5\" \
markerWidth=\"5\" markerHeight=\"5\" orient=\"auto\">\
<path class=\"overtook-head\" d=\"M0 0L10 5L0 10z\"/></marker>
<marker id=\"lent\" viewBox=\"0 0 10 10\" refX=\"8\" refY=\"5\" \
markerWidth=\"5\" markerHeight=\"5\" orient=\"auto\">\
<path class=\"lent-head\" d=\"M0 0L10 5L0 10z\"/></marker>
</defs>
";

/// The marks and their meanings.
const MARKS: [(Shape, &str, u64); 5] = [
    (Shape::Load, "load", 14),
    (Shape::Store, "store", 72),
    (Shape::Add, "add", 137),
    (Shape::Won, "exchange, won", 188),
    (Shape::Lost, "exchange, lost", 310),
];

/// The other shapes and their meanings, and the end of the legend.
const REST: &str = "\
<circle class=\"entry\" cx=\"14\" cy=\"36\" r=\"5\"/>
<text class=\"meaning\" x=\"26\" y=\"40\">entry of the history</text>
<path class=\"arrow overtook\" marker-end=\"url(#overtook)\" d=\"M182 36H214\"/>
<text class=\"meaning\" x=\"222\" y=\"40\">has overtaken</text>
<path class=\"arrow lent\" marker-end=\"url(#lent)\" d=\"M326 36H358\"/>
<text class=\"meaning\" x=\"366\" y=\"40\">has lent its view</text>
<rect class=\"bar unfinished\" x=\"498\" y=\"27\" width=\"26\" height=\"18\" rx=\"5\"/>
<text class=\"meaning\" x=\"532\" y=\"40\">unfinished call</text>
<rect class=\"bar\" x=\"498\" y=\"5\" width=\"26\" height=\"18\" rx=\"5\"/>
<path class=\"cut\" d=\"M524 5l3 3l-6 3l6 3l-6 3l6 3l-3 3\"/>
<text class=\"meaning\" x=\"532\" y=\"18\">cut by the window</text>
</g>
";

/// Writes the legend.
pub(crate) fn push_legend(text: &mut String, top: Pixels) -> Result<(), AllocError> {
    writeln!(
        text,
        "<g class=\"legend\" transform=\"translate(0 {top})\">"
    )?;
    for (shape, words, left) in MARKS {
        let x = Pixels(left);
        let end = push_shape(text, shape, x, Pixels(14))?;
        writeln!(text, "</{end}>")?;
        push_words(text, "meaning", x + 12, Pixels(18), words)?;
    }
    text.push_str(REST)
}
