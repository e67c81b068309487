//! The charts of the page.

ghost use Rattle.std.specs.Prelude.{◌≡◌, ◌≤◌, ◌++◌, length, OnOk};
ghost use Rattle.edge_metrics.specs.Page as spec;

use crate::history::Sample;
use crate::lines::push_number;
use crate::series::Series;
use std::alloc::AllocError;

// How wide and how high a chart is, in the units that it is drawn in.
const WIDTH: u64 = 600;

const HEIGHT: u64 = 100;

// From the left edge of a bar to that of the next one.
const STEP: u64 = 10;

/// Appends a chart: what is drawn, the largest number, and a bar for each sample.
#[tactic(auto, unfolding(crate::specs::Page::chart))]
pub(crate) fn push_chart(
    page: &mut Vec<u8>,
    series: Series,
    samples: &[Sample],
) -> Result<(), AllocError>
    requires { length samples.now ≤ 60 }
    ensures { OnOk result (page.new.items ≡ page.old.items ++ spec.chart series samples.now) }
{
    let largest = series.largest(samples);
    push_caption(page, series, largest)?;
    push_canvas(page)?;
    push_bars(page, series, largest, samples)?;
    page.extend_from_slice(b"</svg>\n")
}

#[tactic(auto, unfolding(crate::specs::Page::caption))]
fn push_caption(page: &mut Vec<u8>, series: Series, largest: u64) -> Result<(), AllocError>
    ensures { OnOk result (page.new.items ≡ page.old.items ++ spec.caption series largest) }
{
    push_title(page, series.title())?;
    push_most(page, largest, series.unit())
}

#[tactic(auto, unfolding(crate::specs::Page::title_line))]
fn push_title(page: &mut Vec<u8>, title: &[u8]) -> Result<(), AllocError>
    ensures { OnOk result (page.new.items ≡ page.old.items ++ spec.title_line title.now) }
{
    page.extend_from_slice(b"<h2>")?;
    page.extend_from_slice(title)?;
    page.extend_from_slice(b"</h2>\n")
}

#[tactic(auto, unfolding(crate::specs::Page::most_line))]
fn push_most(page: &mut Vec<u8>, most: u64, unit: &[u8]) -> Result<(), AllocError>
    ensures { OnOk result (page.new.items ≡ page.old.items ++ spec.most_line most unit.now) }
{
    page.extend_from_slice(b"<p>At most ")?;
    push_number(page, most)?;
    page.extend_from_slice(unit)?;
    page.extend_from_slice(b"</p>\n")
}

#[tactic(auto, unfolding(crate::specs::Page::canvas))]
fn push_canvas(page: &mut Vec<u8>) -> Result<(), AllocError>
    ensures { OnOk result (page.new.items ≡ page.old.items ++ spec.canvas) }
{
    page.extend_from_slice(b"<svg viewBox=\"0 0 600 100\" aria-hidden=\"true\">\n")
}

fn push_bars(
    page: &mut Vec<u8>,
    series: Series,
    largest: u64,
    samples: &[Sample],
) -> Result<(), AllocError>
    requires { length samples.now ≤ 60 }
    ensures { OnOk result (page.new.items ≡ page.old.items ++ spec.bars series largest (spec.left_of samples.now) samples.now) }
{
    let mut left = WIDTH - STEP * samples.len() as u64;
    for sample in samples {
        push_bar(page, left, height_of(series.value_in(sample), largest))?;
        left += STEP;
    }
    Ok(())
}

#[tactic(auto, unfolding(crate::specs::Page::bar))]
fn push_bar(page: &mut Vec<u8>, left: u64, height: u64) -> Result<(), AllocError>
    requires { height ≤ 100 }
    ensures { OnOk result (page.new.items ≡ page.old.items ++ spec.bar left height) }
{
    page.extend_from_slice(b"<rect x=\"")?;
    push_number(page, left)?;
    page.extend_from_slice(b"\" y=\"")?;
    push_number(page, HEIGHT - height)?;
    page.extend_from_slice(b"\" width=\"9\" height=\"")?;
    push_number(page, height)?;
    page.extend_from_slice(b"\"/>\n")
}

// How high the bar of a number is, where the largest one is as high as the chart.
fn height_of(value: u64, largest: u64) -> u64
    ensures height { result ≡ spec.height_of value largest }
    ensures within { result ≤ 100 }
{
    if largest == 0 {
        return 0;
    }
    let height = u128::from(value) * u128::from(HEIGHT) / u128::from(largest);
    height.min(u128::from(HEIGHT)) as u64
}
