//! Texts, numbers, axes and points, worked out by hand.
use std::test::Fail;
use svg_charts::{Axis, Extent, Markup, Point, Shift, edge_point, length_of, round_below, scaled};

// Whether markup has these bytes.
fn reads(markup: Markup, text: &str) -> bool {
    markup.into_bytes().as_slice() == text.as_bytes()
}

#[test]
fn texts_are_escaped_and_tags_are_not(rt: HostRuntime) -> Result<(), Fail> {
    let mut markup = Markup::new(rt.alloc());
    markup.put("<b>")?;
    markup.text("a<b> & \"c\" 'd' &lt;")?;
    assert!(rt;
        reads(
            markup,
            "<b>a&lt;b&gt; &amp; &quot;c&quot; &#39;d&#39; &amp;lt;"
        )
    );
    Ok(())
}

#[test]
fn numbers_have_at_most_one_decimal(rt: HostRuntime) -> Result<(), Fail> {
    let mut markup = Markup::new(rt.alloc());
    markup.tenths(1230)?;
    markup.place("x", 1205)?;
    markup.share("width", 7)?;
    markup.attribute("name", "a\"b")?;
    assert!(rt; reads(markup, "123 x=\"120.5\" width=\"0.7%\" name=\"a&quot;b\""));
    Ok(())
}

// 600 in at most five steps: a step is 120 at least, so 200, and there are three. 1,000 takes five of 200.
#[test]
fn an_even_axis_has_round_steps(rt: HostRuntime) -> Result<(), Fail> {
    let axis = Axis::between(150, 600);
    assert_eq!(rt;
        axis,
        Axis {
            low: 0,
            high: 600,
            step: 200
        }
    );
    assert!(rt; axis.marks(rt.alloc())?.as_slice() == [0, 200, 400, 600].as_slice());
    assert_eq!(rt; axis.place(150), 250);
    assert_eq!(rt; axis.place(601), 1000);
    assert_eq!(rt;
        Axis::between(0, 1000),
        Axis {
            low: 0,
            high: 1000,
            step: 200
        }
    );
    Ok(())
}

// From 3 to 100 is a factor of 33, so the axis goes from 2 to 100 by 1, 2 and 5. 4 is one doubling of the axis's log2(50).
#[test]
fn a_logarithmic_axis_has_marks_at_1_2_and_5(rt: HostRuntime) -> Result<(), Fail> {
    let axis = Axis::between(3, 100);
    assert!(rt; axis.is_logarithmic());
    assert!(rt; axis.marks(rt.alloc())?.as_slice() == [2, 5, 10, 20, 50, 100].as_slice());
    assert_eq!(rt; axis.place(2), 0);
    assert_eq!(rt; axis.place(100), 1000);
    let far = Axis::between(7, 60_000);
    assert!(rt;
        far.marks(rt.alloc())?.as_slice() == [1, 10, 100, 1000, 10_000, 100_000].as_slice()
    );
    assert_eq!(rt; round_below(49, false), 20);
    Ok(())
}

// A box of 100 by 40 round (500, 500). Toward (900, 500) a line leaves it at its right side, and toward (500, 900) at its foot.
#[test]
fn lines_leave_a_box_at_its_edge(rt: HostRuntime) -> Result<(), Fail> {
    let middle = Point { x: 500, y: 500 };
    let extent = Extent {
        width: 100,
        height: 40,
    };
    let right = edge_point(middle, extent, Point { x: 900, y: 500 });
    assert_eq!(rt; right, Point { x: 550, y: 500 });
    let foot = edge_point(middle, extent, Point { x: 500, y: 900 });
    assert_eq!(rt; foot, Point { x: 500, y: 520 });
    assert_eq!(rt; length_of(Shift { x: -80, y: 0 }), 80);
    assert_eq!(rt; scaled(Shift { x: -80, y: 0 }, 20), Shift { x: -20, y: 0 });
    Ok(())
}
