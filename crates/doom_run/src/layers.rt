// A view with the weapon layers of its rows.
//
// Rules: `specs/Layers`; `picture_rules`, Paints (`overlaid_paints`). The original:
// `R_DrawPlayerSprites`, r_things.c.
ghost use Rattle.doom_run.specs.Rules.{joined_lists, view_of, weapon_dots};
ghost use Rattle.csv_tables.specs.declared.weapons.TheConstants.{MAX_WEAPONS};
ghost use Rattle.doom_run.specs.Drawn.{DrawsLayered, DrawsLayers};
ghost use Rattle.doom_run.specs.Layers.{layer_of, layers_from, layer_light};
ghost use Rattle.doom_run.specs.Renders.{IsDrawable};
ghost use Rattle.frame_core.specs.Ends.{EndsOver, EndsWithin};
ghost use Rattle.level_audit.specs.Weapons.{AreThere};
ghost use Rattle.pixel_strips.specs.Standing.{StandsInFrame};
ghost use Rattle.std.specs.Prelude.{◌≡◌, ◌<◌, ◌≤◌, ◌∷◌, [], Some, length, option_map};
ghost use Rattle.texture_build.specs.Paints.{paint_state};
ghost use Rattle.weapon_overlay.specs.Layers.{PaintsLayer, layer_value};
ghost use Rattle.weapon_overlay.specs.Seen.{IsLayerPicture};

use art_rules::Shelf;
use csv_tables::WeaponRow;
use frame_core::{ViewFault, Workshop, draw_view_on};
use level_audit::{LoadedScene, SoundScene};
use picture_rules::Eye;
use pixel_strips::Canvas;
use sprite_book::SpriteBook;
use texture_build::{CacheFault, Directory, LumpCache, LumpNo};
use view_frame::View;
use weapon_overlay::{Layer, overlay};

// What the layers of a view are drawn from, whose number is that of the view in its path.
#[derive(Clone, Copy)]
struct LayerScene<'a> {
    view: &'a View<'a>,
    book: &'a SpriteBook,
    dir: &'a Directory,
    colormap: LumpNo,
    number: u32,
}

// Draws the view of `eye`, which is view number `number` of the path, and its weapon layers.
pub fn draw_layered<S: Shelf, C: Canvas>(
    loaded: &mut LoadedScene,
    shop: &mut Workshop,
    number: u32,
    eye: Eye,
    shelf: &mut S,
    canvas: &mut C,
) -> Result<(), ViewFault>
    requires { IsDrawable loaded.old }
    ensures within { EndsWithin (view_of loaded.old.files.tables eye) loaded.old.scene.scene
        shop.old.limits result }
    ensures over { EndsOver (view_of loaded.old.files.tables eye) loaded.old.scene.scene
        shop.old.limits result }
    ensures paints { DrawsLayered C.mark number eye (S.view shelf.old) (S.view shelf.new)
        loaded.old loaded.new (C.view canvas.old) (C.view canvas.new) result }
    ensures limits { shop.new.limits ≡ shop.old.limits }
{
    draw_view_on(
        &loaded.scene,
        &loaded.files.tables,
        shop,
        &mut loaded.cache,
        &loaded.files.dir,
        shelf,
        eye,
        canvas,
    )?;
    draw_layers(loaded, number, eye, shelf, canvas)?;
    Ok(())
}

// The light of the sector where the viewpoint stands.
fn layer_light(scene: &SoundScene, eye: Eye) -> i16
    requires { length scene.now.scene.faces.flats ≡ length scene.now.scene.base.level.sectors }
    ensures { result ≡ layer_light scene.now.scene eye }
{
    let sector = scene.sector_at(eye.x, eye.y);
    scene.surfaces()[sector as usize].light
}

// The layer of a row of that number, where its frame has a picture.
fn layer_of(book: &SpriteBook, row: &WeaponRow, number: u16, light: i16) -> Option<Layer>
    ensures { option_map layer_value result ≡ layer_of book.now light number row.now }
{
    let shape = book.pick(row.sprite, row.frame, 0)?;
    Some(Layer {
        row: number,
        shape,
        sx: row.sx,
        sy: row.sy,
        bright: row.bright,
        light,
    })
}

// Draws the layers of view number `number` in the order of their rows.
fn draw_layers<S: Shelf, C: Canvas>(
    loaded: &mut LoadedScene,
    number: u32,
    eye: Eye,
    shelf: &mut S,
    canvas: &mut C,
) -> Result<(), CacheFault>
    requires drawable { IsDrawable loaded.old }
    requires placed { StandsInFrame (view_of loaded.old.files.tables eye).shape
        (C.view canvas.old) }
    ensures paints { DrawsLayers C.mark number eye (S.view shelf.old) (S.view shelf.new)
        loaded.old loaded.new (C.view canvas.old) (C.view canvas.new) result }
{
    let Some(table) = &loaded.files.weapons else {
        return Ok(());
    };
    let Some(book) = &loaded.weapons else {
        return Ok(());
    };
    let view = View::new(&loaded.files.tables, eye);
    let light = layer_light(&loaded.scene, eye);
    let scene = LayerScene {
        view: &view,
        book,
        dir: &loaded.files.dir,
        colormap: loaded.scene.colormap(),
        number,
    };
    draw_rows(
        &scene,
        table.rows(),
        light,
        &mut loaded.cache,
        shelf,
        canvas,
    )
}

// Draws the layers of those rows that are of view number `number`.
fn draw_rows<S: Shelf, C: Canvas>(
    scene: &LayerScene<'_>,
    rows: &[WeaponRow],
    light: i16,
    cache: &mut LumpCache,
    shelf: &mut S,
    canvas: &mut C,
) -> Result<(), CacheFault>
    requires count { length rows.now ≤ MAX_WEAPONS }
    requires slots { length scene.now.dir.now.lumps ≤ cache.old.lumps }
    requires colormap { scene.now.colormap.0 < length scene.now.dir.now.lumps }
    requires pictures { AreThere scene.now.dir.now.lumps (Some scene.now.book.now) }
    requires placed { StandsInFrame scene.now.view.now.shape (C.view canvas.old) }
    ensures paints { PaintsLayer C.mark scene.now.dir.now scene.now.colormap.0
        (IsLayerPicture scene.now.view.now
        (layers_from scene.now.book.now light scene.now.number 1 rows.now))
        (λ art. joined_lists (weapon_dots scene.now.view.now art)
        (layers_from scene.now.book.now light scene.now.number 1 rows.now))
        (paint_state (S.view shelf.old) cache.old (C.view canvas.old))
        (paint_state (S.view shelf.new) cache.new (C.view canvas.new)) result }
{
    for (i, row) in rows.iter().enumerate() {
        let place = i as u16 + 1;
        draw_row(scene, row, place, light, cache, shelf, canvas)?;
    }
    Ok(())
}

// Draws the layer of row number `place`, if the row is of view number `number` and its frame has
// a picture.
fn draw_row<S: Shelf, C: Canvas>(
    scene: &LayerScene<'_>,
    row: &WeaponRow,
    place: u16,
    light: i16,
    cache: &mut LumpCache,
    shelf: &mut S,
    canvas: &mut C,
) -> Result<(), CacheFault>
    requires slots { length scene.now.dir.now.lumps ≤ cache.old.lumps }
    requires colormap { scene.now.colormap.0 < length scene.now.dir.now.lumps }
    requires pictures { AreThere scene.now.dir.now.lumps (Some scene.now.book.now) }
    requires placed { StandsInFrame scene.now.view.now.shape (C.view canvas.old) }
    ensures paints { PaintsLayer C.mark scene.now.dir.now scene.now.colormap.0
        (IsLayerPicture scene.now.view.now
        (layers_from scene.now.book.now light scene.now.number place (row.now ∷ [])))
        (λ art. joined_lists (weapon_dots scene.now.view.now art)
        (layers_from scene.now.book.now light scene.now.number place
        (row.now ∷ [])))
        (paint_state (S.view shelf.old) cache.old (C.view canvas.old))
        (paint_state (S.view shelf.new) cache.new (C.view canvas.new)) result }
{
    if row.view as u32 != scene.number {
        return Ok(());
    }
    let Some(layer) = layer_of(scene.book, row, place, light) else {
        return Ok(());
    };
    overlay(
        scene.view,
        &layer,
        scene.colormap,
        cache,
        scene.dir,
        shelf,
        canvas,
    )
}
