// The survey call and its gate from a station in units. They are written out here and in `metres`: the C interface asks for a call for each form of the station.
ghost use Rattle.std.specs.Prelude.{◌≡◌};
ghost use Rattle.model.specs.Vector.{vec};
ghost use Rattle.model.specs.Station.{units};
ghost use Rattle.model.specs.Questions.{survey_answer};
ghost use Rattle.contract.specs.Contract.{axes_by, tile_by, camera_by, lent_of, lengths_by, gate_call};
ghost use Rattle.demands.specs.Demands.{ClosestSurveyed};

// What the survey call answers on these numbers.
#[unsafe(no_mangle)]
pub extern "C" fn ring_gate(
    scene: &[u8],
    eye_x: i16,
    eye_y: i16,
    eye_z: i16,
    right_x: i16,
    right_y: i16,
    right_z: i16,
    forward_x: i16,
    forward_y: i16,
    forward_z: i16,
    up_x: i16,
    up_y: i16,
    up_z: i16,
    width: u16,
    height: u16,
    lens: u16,
    left: u16,
    top: u16,
    tile_width: u16,
    tile_height: u16,
    picture_len: usize,
    counts_len: usize,
    patch_counts_len: usize,
    unlit_len: usize,
    lit_len: usize,
    counter: u32,
) -> u32
    ensures { result ≡ survey_answer (gate_call scene.now (units (vec eye_x eye_y eye_z))
        (camera_by (axes_by (vec right_x right_y right_z) (vec forward_x forward_y forward_z) (vec up_x up_y up_z)) width height lens (tile_by left top tile_width tile_height))
        (lengths_by picture_len counts_len patch_counts_len unlit_len lit_len) counter) }
{
    survey::units::ring_gate(
        scene,
        eye_x,
        eye_y,
        eye_z,
        right_x,
        right_y,
        right_z,
        forward_x,
        forward_y,
        forward_z,
        up_x,
        up_y,
        up_z,
        width,
        height,
        lens,
        left,
        top,
        tile_width,
        tile_height,
        picture_len,
        counts_len,
        patch_counts_len,
        unlit_len,
        lit_len,
        counter,
    )
}

// Checks the scene and paints one tile of its picture, or refuses and leaves all that is lent as it was. Width, height and lens are the window's; left and top place the tile in it, and what is lent has the tile's size.
#[unsafe(no_mangle)]
pub extern "C" fn ring_survey(
    scene: &[u8],
    eye_x: i16,
    eye_y: i16,
    eye_z: i16,
    right_x: i16,
    right_y: i16,
    right_z: i16,
    forward_x: i16,
    forward_y: i16,
    forward_z: i16,
    up_x: i16,
    up_y: i16,
    up_z: i16,
    width: u16,
    height: u16,
    lens: u16,
    left: u16,
    top: u16,
    tile_width: u16,
    tile_height: u16,
    picture: &mut [u16],
    counts: &mut [u32],
    patch_counts: &mut [u32],
    unlit: &mut [u16],
    lit: &mut [u64],
    counter: &mut u32,
) -> u32
    ensures { ClosestSurveyed scene.now (units (vec eye_x eye_y eye_z))
        (camera_by (axes_by (vec right_x right_y right_z) (vec forward_x forward_y forward_z) (vec up_x up_y up_z)) width height lens (tile_by left top tile_width tile_height))
        (lent_of picture.old counts.old patch_counts.old unlit.old lit.old counter.old)
        (lent_of picture.new counts.new patch_counts.new unlit.new lit.new counter.new) result }
{
    survey::units::ring_survey(
        scene,
        eye_x,
        eye_y,
        eye_z,
        right_x,
        right_y,
        right_z,
        forward_x,
        forward_y,
        forward_z,
        up_x,
        up_y,
        up_z,
        width,
        height,
        lens,
        left,
        top,
        tile_width,
        tile_height,
        picture,
        counts,
        patch_counts,
        unlit,
        lit,
        counter,
    )
}
