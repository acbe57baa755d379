// Laws of the definitions, each as the contract of a function that does nothing.
ghost use Rattle.std.specs.Prelude.{◌≡◌, ◌+◌};
ghost use Rattle.{tally_base.specs.{Settings.CubeView, Tally.History}, scan_image.specs.ImageCounts.in_all_cells, flim_cube.specs.CubeCounts.{count_over, in_whole_cube}};

/// A photon in a pixel of the image is in one of the bins of that pixel in the cube, or past the last.
pub fn a_cube_parts_the_image()
    ensures { (set : CubeView) (h : History) → in_whole_cube set h + count_over set h ≡ in_all_cells set.image h }
{}
