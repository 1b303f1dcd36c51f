//! Wraps standard input to 30 columns, by Unicode's data.
#![tactic(auto)]

use icu_segmenter::options::LineBreakOptions;
use icu_segmenter::wrap::LineWrapper;
use icu_segmenter_data::line_segmenter;
use std::io::Read;

fn main(rt: HostRuntime) -> anyhow::Result<()> {
    let alloc = rt.alloc();
    let mut text = String::new(alloc);
    rt.stdin().read_to_string(&mut text)?;
    let lines = line_segmenter(alloc, LineBreakOptions::default())?;
    let wrapper = LineWrapper::new(lines.as_borrowed())?;
    for line in wrapper.wrap_str(text.as_str(), 30) {
        println!(rt; "{:2} {}", line.columns(), line.text().trim_end())?;
    }
    Ok(())
}
