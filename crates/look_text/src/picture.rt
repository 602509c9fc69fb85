//! A map of all sectors as a picture: SVG.
use crate::kinds::{Kind, Place, places_of};
use crate::legend::{LINES, colour_of, line_of, write_legend};
use crate::rows::write_run;
use label_survey::Run;
use std::alloc::{AllocError, Global};
use volume_view::{Found, View};

/// The width of the map, and where it begins.
const WIDTH: u64 = 768;

const LEFT: u64 = 84;

const TOP: u64 = 40;

const FREE: Place = Place {
    kind: Kind::Free,
    run: None,
};

/// How the map is laid out: cells in rows, each of so many sectors.
#[derive(Clone, Copy)]
struct Grid {
    columns: usize,
    /// The width and height of a cell.
    size: u64,
    /// Sectors a cell.
    each: usize,
}

fn grid_of(sectors: usize) -> Grid {
    if sectors <= 1024 {
        Grid {
            columns: 32,
            size: 24,
            each: 1,
        }
    } else if sectors <= 4096 {
        Grid {
            columns: 64,
            size: 12,
            each: 1,
        }
    } else {
        Grid {
            columns: 128,
            size: 6,
            each: sectors.div_ceil(16384),
        }
    }
}

/// What a picture is drawn of.
#[derive(Clone, Copy)]
struct Sheet<'v> {
    view: &'v View<Global>,
    grid: Grid,
}

// How many sectors are of each kind, by the legend's lines.
fn counts_of(places: &[Place]) -> [u32; LINES] {
    let mut counts = [0u32; LINES];
    for place in places {
        let line = line_of(place.kind);
        if line < LINES {
            counts[line] = counts[line].saturating_add(1);
        }
    }
    counts
}

// What a cell shows: lost, left over, a wrong map and root before all, else what most of its
// sectors are that are not free.
fn cell_place(places: &[Place]) -> Place {
    let mut shown = FREE;
    let mut most = 0u32;
    let counts = counts_of(places);
    for place in places {
        if place.kind == Kind::Lost {
            return *place;
        }
        let line = line_of(place.kind);
        let count = if line < LINES { counts[line] } else { 0 };
        let weight = match place.kind {
            Kind::Free => 0,
            Kind::Root | Kind::WrongMap | Kind::Leftover => u32::MAX,
            _ => count,
        };
        if weight > most {
            shown = *place;
            most = weight;
        }
    }
    shown
}

fn cells_of(alloc: Global, places: &[Place], each: usize) -> Result<Vec<Place>, AllocError> {
    let mut cells = Vec::new(alloc);
    if each > 0 {
        for cell in places.chunks(each) {
            cells.push(cell_place(cell))?;
        }
    }
    Ok(cells)
}

// Writes a run as the title of its rectangle.
fn write_run_title(out: &mut String, run: &Run, end: &str) -> Result<(), AllocError> {
    let id = run.id;
    write!(out, "><title>{id:016x} ")?;
    write_run(out, run)?;
    writeln!(out, "{end}</title></rect>")
}

// Ends a rectangle, with the run of this number as its title.
fn end_rect(out: &mut String, found: &Found<Global>, run: Option<usize>) -> Result<(), AllocError> {
    let Some(number) = run else {
        return writeln!(out, "/>");
    };
    if let Some(run) = found.runs.get(number) {
        return write_run_title(out, run, "");
    }
    match found.leftovers.get(number.saturating_sub(found.runs.len())) {
        Some(run) => write_run_title(out, run, ", left over"),
        None => writeln!(out, "/>"),
    }
}

fn write_rect(
    out: &mut String,
    sheet: Sheet<'_>,
    column: usize,
    y: u64,
    cells: usize,
    place: Place,
) -> Result<(), AllocError> {
    let x = LEFT.saturating_add(sheet.grid.size.saturating_mul(column as u64));
    let width = sheet.grid.size.saturating_mul(cells as u64);
    let height = sheet.grid.size;
    let colour = colour_of(place.kind);
    write!(
        out,
        "<rect x=\"{x}\" y=\"{y}\" width=\"{width}\" height=\"{height}\" fill=\"{colour}\""
    )?;
    end_rect(out, &sheet.view.found, place.run)
}

// A rectangle for each row of cells that show the same, and of one run.
fn write_row(out: &mut String, sheet: Sheet<'_>, y: u64, row: &[Place]) -> Result<(), AllocError> {
    let Some(begin) = row.first() else {
        return Ok(());
    };
    let mut place = *begin;
    let mut start = 0;
    for i in 0..row.len() {
        if row[i] != place {
            write_rect(out, sheet, start, y, i.saturating_sub(start), place)?;
            place = row[i];
            start = i;
        }
    }
    write_rect(out, sheet, start, y, row.len().saturating_sub(start), place)
}

// The number of the first sector before a row.
fn write_number(out: &mut String, y: u64, sector: usize) -> Result<(), AllocError> {
    let text_y = y.saturating_add(12);
    writeln!(
        out,
        "<text x=\"76\" y=\"{text_y}\" text-anchor=\"end\">{sector}</text>"
    )
}

fn write_rows(out: &mut String, sheet: Sheet<'_>, cells: &[Place]) -> Result<u64, AllocError> {
    let grid = sheet.grid;
    let mut y = TOP;
    let mut first = 0usize;
    if grid.columns > 0 {
        for row in cells.chunks(grid.columns) {
            if y.saturating_sub(TOP) % 24 == 0 {
                write_number(out, y, first)?;
            }
            write_row(out, sheet, y, row)?;
            y = y.saturating_add(grid.size);
            first = first.saturating_add(grid.columns.saturating_mul(grid.each));
        }
    }
    Ok(y)
}

// Lines between the cells, where these are large.
fn write_lines(out: &mut String, grid: Grid, bottom: u64) -> Result<(), AllocError> {
    if grid.size < 12 {
        return Ok(());
    }
    write!(out, "<path stroke=\"#ffffff\" d=\"")?;
    for column in 1..grid.columns {
        let x = LEFT.saturating_add(grid.size.saturating_mul(column as u64));
        write!(out, "M{x} {TOP}V{bottom}")?;
    }
    let right = LEFT.saturating_add(WIDTH);
    let mut y = TOP;
    for _ in 0..64 {
        y = y.saturating_add(grid.size);
        if y < bottom {
            write!(out, "M{LEFT} {y}H{right}")?;
        }
    }
    writeln!(out, "\"/>")
}

fn write_title(out: &mut String, view: &View<Global>, each: usize) -> Result<(), AllocError> {
    let sectors = view.layout.sectors;
    let state = match &view.root {
        Ok(root) => { if root.clean { "closed" } else { "not closed" } }
        Err(_) => "with no valid root",
    };
    let cell = if each == 1 { "sector" } else { "sectors" };
    writeln!(
        out,
        "<text x=\"84\" y=\"24\">a volume of {sectors} sectors, {state}; a cell is {each} {cell}</text>"
    )
}

/// Writes a map of all sectors as SVG.
pub fn write_picture(
    alloc: Global,
    out: &mut String,
    view: &View<Global>,
) -> Result<(), AllocError> {
    let places = places_of(alloc, view)?;
    let grid = grid_of(places.len());
    let cells = cells_of(alloc, &places, grid.each)?;
    let rows = cells.len().div_ceil(grid.columns.max(1)) as u64;
    let bottom = TOP.saturating_add(grid.size.saturating_mul(rows));
    let height = bottom.saturating_add(208);
    writeln!(
        out,
        "<svg xmlns=\"http://www.w3.org/2000/svg\" width=\"876\" height=\"{height}\" viewBox=\"0 0 876 {height}\" font-family=\"sans-serif\" font-size=\"12\">"
    )?;
    writeln!(
        out,
        "<rect width=\"876\" height=\"{height}\" fill=\"#ffffff\"/>"
    )?;
    write_title(out, view, grid.each)?;
    let end = write_rows(out, Sheet { view, grid }, &cells)?;
    write_lines(out, grid, end)?;
    write_legend(out, bottom.saturating_add(16), &counts_of(&places))?;
    writeln!(out, "</svg>")
}
