// Rows of tests, a line each.

/// A plan, and all that it says.
pub(crate) const PLANS: &str =
    " | Policy { order: Drop, reserved: Skip, records: 1099511627776, settle: 0 } period 1
version = 1; order = 'drop'; reserved = \"skip\" | Policy { order: Drop, reserved: Skip, records: 1099511627776, settle: 0 } period 1
limits = {} | Policy { order: Drop, reserved: Skip, records: 1099511627776, settle: 0 } period 1
[limits]; records = 1_099_511_627_776 | Policy { order: Drop, reserved: Skip, records: 1099511627776, settle: 0 } period 1
limits.records = 0x100_0000_0000 | Policy { order: Drop, reserved: Skip, records: 1099511627776, settle: 0 } period 1
group = []; histogram = []; trace = []; startstop = []; coincidence = []; image = []; correlation = [] | Policy { order: Drop, reserved: Skip, records: 1099511627776, settle: 0 } period 1
order = 'stop'; reserved = 'stop'; limits = { records = 1000 }; histogram = [{ group = 2, bins = 100, width = 4 }]; trace = [{ group = 1, bins = 3, width = 5 }, { group = 2, bins = 1, width = 2, origin = 7 }]; [[group]]; inputs = [0, 3, 64]; [[group]]; gate = [10, 32768]; inputs = [1] | Policy { order: Stop, reserved: Stop, records: 1000, settle: 0 } period 1; inputs 18446744073709551625 gates []; inputs 2 gates [(10, 32768)]; HistSet { group: 2, width: 4, bins: 100 }; TraceSet { group: 1, origin: 0, width: 5, bins: 3 }; TraceSet { group: 2, origin: 7, width: 2, bins: 1 }
group = [{ inputs = [0] }, { inputs = [1] }]; startstop = [{ start = 2, stop = 1, width = 3, bins = 8 }, { start = 1, stop = 1, width = 4611686018427387904, bins = 1 }] | Policy { order: Drop, reserved: Skip, records: 1099511627776, settle: 0 } period 1; inputs 1 gates []; inputs 2 gates []; StartStopSet { start: 2, stop: 1, width: 3, bins: 8 }; StartStopSet { start: 1, stop: 1, width: 4611686018427387904, bins: 1 }
version = 2; period = 100; shift = [{ input = 0, shift = 10 }, { shift = 99, input = 3 }]; group = [{ inputs = [0] }, { inputs = [0, 3], gates = [[0, 5], [13, 14]] }]; image = [{ group = 2, width = 3, height = 2, dwell = 10, line = 1, serpentine = true }, { group = 1, width = 1, height = 1, dwell = 1, line = 2 }] | Policy { order: Drop, reserved: Skip, records: 1099511627776, settle: 0 } period 100; ShiftSet { input: 0, shift: 10 }; ShiftSet { input: 3, shift: 99 }; inputs 1 gates []; inputs 9 gates [(0, 5), (13, 14)]; ImageSet { group: 2, width: 3, height: 2, dwell: 10, line: 1, frame: None, stop: None, serpentine: true }; ImageSet { group: 1, width: 1, height: 1, dwell: 1, line: 2, frame: None, stop: None, serpentine: false }
version = 2; group = [{ inputs = [0] }]; cube = [{ group = 1, width = 2048, height = 1024, dwell = 7, line = 1, stop = 3, dwidth = 5, dbins = 32 }, { group = 1, width = 1, height = 1, dwell = 1, line = 4, frame = 2, serpentine = true, dwidth = 32768, dbins = 32768 }] | Policy { order: Drop, reserved: Skip, records: 1099511627776, settle: 0 } period 1; inputs 1 gates []; CubeSet { image: ImageSet { group: 1, width: 2048, height: 1024, dwell: 7, line: 1, frame: None, stop: Some(3), serpentine: false }, dwidth: 5, dbins: 32 }; CubeSet { image: ImageSet { group: 1, width: 1, height: 1, dwell: 1, line: 4, frame: Some(2), stop: None, serpentine: true }, dwidth: 32768, dbins: 32768 }
version = 2; group = [{ inputs = [0] }, { inputs = [1] }, { inputs = [2] }, { inputs = [3] }, { inputs = [4] }, { inputs = [5] }, { inputs = [6] }]; fold = [{ groups = [1, 2, 3, 5, 6, 7], window = 1048576 }, { groups = [4], window = 1 }] | Policy { order: Drop, reserved: Skip, records: 1099511627776, settle: 0 } period 1; inputs 1 gates []; inputs 2 gates []; inputs 4 gates []; inputs 8 gates []; inputs 16 gates []; inputs 32 gates []; inputs 64 gates []; groups [1, 2, 3, 5, 6, 7] window 1048576; groups [4] window 1
group = [{ inputs = [0] }, { inputs = [1] }]; coincidence = [{ first = 2, second = 1, reach = 7, width = 3 }, { first = 1, second = 1, reach = 1, width = 1 }]; correlation = [{ first = 1, second = 2, lags = 8, levels = 5 }, { first = 2, second = 2, lags = 2, levels = 1 }] | Policy { order: Drop, reserved: Skip, records: 1099511627776, settle: 0 } period 1; inputs 1 gates []; inputs 2 gates []; CoincidenceSet { first: 2, second: 1, reach: 7, width: 3 }; CoincidenceSet { first: 1, second: 1, reach: 1, width: 1 }; CorrelationSet { first: 1, second: 2, lags: 8, levels: 5 }; CorrelationSet { first: 2, second: 2, lags: 2, levels: 1 }
group = [{ inputs = [0] }, { inputs = [1] }]; image = [{ group = 2, width = 3, height = 4, dwell = 5, line = 1, frame = 2, stop = 3 }, { group = 1, width = 6, height = 7, dwell = 8, line = 4 }] | Policy { order: Drop, reserved: Skip, records: 1099511627776, settle: 0 } period 1; inputs 1 gates []; inputs 2 gates []; ImageSet { group: 2, width: 3, height: 4, dwell: 5, line: 1, frame: Some(2), stop: Some(3), serpentine: false }; ImageSet { group: 1, width: 6, height: 7, dwell: 8, line: 4, frame: None, stop: None, serpentine: false }
version = 2 | Policy { order: Drop, reserved: Skip, records: 1099511627776, settle: 0 } period 1
version = 2; settle = 0 | Policy { order: Drop, reserved: Skip, records: 1099511627776, settle: 0 } period 1
settle = 1; version = 2 | Policy { order: Drop, reserved: Skip, records: 1099511627776, settle: 1 } period 1
version = 2; settle = 64 | Policy { order: Drop, reserved: Skip, records: 1099511627776, settle: 64 } period 1
version = 2; order = 'stop'; settle = 7; period = 3 | Policy { order: Stop, reserved: Skip, records: 1099511627776, settle: 7 } period 3
";

/// A name, a plan, events, and the bits of the groups that each of them is in.
pub(crate) const GROUPS: &str =
    "groups 1 | [[group]]; inputs = [0, 3]; [[group]]; inputs = [1, 3]; gate = [10, 20] | 0:0 0:10 3:9 3:20 | 1
groups 3 | [[group]]; inputs = [0, 3]; [[group]]; inputs = [1, 3]; gate = [10, 20] | 3:10 3:19 | 3
groups 0 | [[group]]; inputs = [0, 3]; [[group]]; inputs = [1, 3]; gate = [10, 20] | 1:9 2:10 255:10 m3 | 0
groups 2 | [[group]]; inputs = [0, 3]; [[group]]; inputs = [1, 3]; gate = [10, 20] | 1:10 | 2
groups 1 | [[group]]; inputs = [0, 3, 64]; [[group]]; inputs = [3]; gate = [10, 20]; [[group]]; inputs = [1]; gate = [32767, 32768] | 0:0 3:9 3:20 64:32767 | 1
groups 3 | [[group]]; inputs = [0, 3, 64]; [[group]]; inputs = [3]; gate = [10, 20]; [[group]]; inputs = [1]; gate = [32767, 32768] | 3:10 3:19 | 3
groups 0 | [[group]]; inputs = [0, 3, 64]; [[group]]; inputs = [3]; gate = [10, 20]; [[group]]; inputs = [1]; gate = [32767, 32768] | 1:32766 2:10 65:10 255:10 m1 m15 | 0
groups 4 | [[group]]; inputs = [0, 3, 64]; [[group]]; inputs = [3]; gate = [10, 20]; [[group]]; inputs = [1]; gate = [32767, 32768] | 1:32767 | 4
";

/// A name, a table, events, and how many counts the table has, with those that aren't 0 and their places.
pub(crate) const ROWS: &str =
    "each photon is in its bin | cube = [{ group = 1, width = 2, height = 2, dwell = 10, line = 1, frame = 2, dwidth = 5, dbins = 2 }] | 50:1:0 m100:3 100:1:4 109:3:5 109:2:9 110:1:10 110:1:9 120:1:0 m130:1 135:1:0 | 10: 0=1 1=1 3=1 4=1 8=2 9=1
counts of a cell need one byte, two and three, each beside cells that need fewer | cube = [{ group = 1, width = 2, height = 2, dwell = 10, line = 1, frame = 2, dwidth = 5, dbins = 2 }] | m100:3 255*100:1:0 256*100:1:5 257*110:1:0 65537*110:1:5 | 10: 0=255 1=256 2=257 3=65537
the same in fewer cells than are kept together | cube = [{ group = 1, width = 1, height = 1, dwell = 10, line = 1, frame = 2, dwidth = 5, dbins = 3 }] | m100:3 255*100:1:0 256*100:1:5 65537*100:1:10 | 5: 0=255 1=256 2=65537
groups of a window | fold = [{ groups = [1, 2, 3], window = 3 }] | 0 3:2 5:4 5 | 8: 3=1 5=2 7=1
the end of a window is in it | fold = [{ groups = [1, 2], window = 4 }] | 0 4:2 9:2 | 4: 2=2 3=1
photons of other groups, of two groups at once, and ticks that are further apart than the window | fold = [{ groups = [1, 2], window = 1 }] | 0:8 2:3 4 5:8 5:2 5:2 60000:9 | 4: 1=1 2=2 3=2
each dtime is in its bin | histogram = [{ group = 1, width = 4, bins = 2 }] | 1030:1:0 1030:1:3 1030:1:4 1030:1:7 1030:1:8 | 3: 0=2 1=2 2=1
only photons of the group count | histogram = [{ group = 64, width = 1, bins = 32768 }] | 1030:9223372036854775808:32767 1030:1:32767 m1030:15 1030:18446744073709551615:0 1030:18446744073709551615:32767 | 32769: 0=1 32767=2
a frame and a line in one marker | image = [{ group = 1, width = 2, height = 2, dwell = 10, line = 1, frame = 2 }] | m100:3 100 119 120 | 5: 0=1 1=1 4=1
before any line, and behind a stop | image = [{ group = 1, width = 2, height = 2, dwell = 10, line = 1, frame = 2, stop = 3 }] | 5 m10:3 m12:4 13 | 5: 4=2
no frame bit | image = [{ group = 1, width = 1, height = 2, dwell = 10, line = 1 }] | m0:1 0 m10:1 10 m20:1 20 | 3: 0=2 1=1
two frames | image = [{ group = 1, width = 3, height = 2, dwell = 10, line = 1, frame = 2 }] | m0:3 0 29 30 m40:1 55 m60:1 60 m70:3 70 85 | 7: 0=2 1=1 2=1 4=1 6=2
photons of other groups | image = [{ group = 1, width = 1, height = 1, dwell = 10, line = 1 }] | 0:2 0:18446744073709551615 m10:1 10:0 11:18446744073709551614 11:3 12 | 2: 0=2 1=1
the greatest image: each photon is in its own pixel | image = [{ group = 1, width = 2048, height = 2048, dwell = 10, line = 1 }] | m0:1 0 20479 20480 m30000:1 50479 | 4194305: 0=1 2047=1 4095=1 4194304=1
before, in and behind a trace | trace = [{ group = 1, origin = 10, width = 5, bins = 2 }] | 5 10 14 15 1000 | 4: 0=2 1=1 2=1 3=1
times that stay in a bin, that begin one, that pass over one, and that lie behind the last | trace = [{ group = 1, origin = 0, width = 10, bins = 4 }] | 0 9 10 10 19 35 39 40 40 49 95 | 6: 0=2 1=3 3=2 5=4
the greatest origin | trace = [{ group = 1, origin = 4611686018427387904, width = 268435456, bins = 1 }] | 4611686018427387903 4611686018427387904 4611686018695823359 4611686018695823360 | 3: 0=2 1=1 2=1
the greatest width | trace = [{ group = 1, origin = 0, width = 4611686018427387904, bins = 3 }] | 0 4611686018427387903 4611686018427387904 4611686018695823360 | 5: 0=2 1=2
both | trace = [{ group = 1, origin = 4611686018427387904, width = 4611686018427387904, bins = 1 }] | 0 4611686018427387904 4611686018695823360 | 3: 0=2 1=1
markers and photons of other groups count nowhere | trace = [{ group = 1, origin = 10, width = 5, bins = 2 }] | m9:15 9:2 10:18446744073709551615 12:18446744073709551614 m12:15:1 100:0 m100:15 | 4: 0=1
the greatest trace: each photon is in its own bin | trace = [{ group = 1, origin = 0, width = 1, bins = 1048576 }] | 0 524288 1048575 1048575 1048576 | 1048578: 0=1 524288=1 1048575=2 1048577=1
only neighbours | startstop = [{ start = 1, stop = 2, width = 1, bins = 16 }] | 0 5 9:2 9:2 | 17: 4=1
one group | startstop = [{ start = 1, stop = 1, width = 4, bins = 2 }] | 0 4 4 20 | 3: 0=1 1=1 2=1
markers between | startstop = [{ start = 1, stop = 2, width = 1, bins = 16 }] | 0 m2:15 m3:15 6:2 | 17: 6=1
a photon of both groups | startstop = [{ start = 1, stop = 2, width = 1, bins = 16 }] | 1 3:3 8:2 9:2 | 17: 2=1 5=1
a photon of a third group between | startstop = [{ start = 1, stop = 2, width = 1, bins = 16 }] | 0 4:4 9:2 10:4 | 17: 9=1
the last bin and past it | startstop = [{ start = 1, stop = 2, width = 1, bins = 16 }] | 0 15:2 15 31:2 | 17: 15=1 16=1
photons of one tick, and at the reach | coincidence = [{ first = 1, second = 1, reach = 4, width = 1 }] | 3 3 7 | 9: 0=2 4=2 8=2
one tick more than the reach | coincidence = [{ first = 1, second = 1, reach = 4, width = 1 }] | 0 5 | 9:
the differences -4, 0 and 4, in cells of three ticks, the last of which is cut off | coincidence = [{ first = 1, second = 2, reach = 4, width = 3 }] | 6:2 10 10:2 14:2 | 3: 0=1 1=1 2=1
many photons of one tick, of which three are in both groups | coincidence = [{ first = 1, second = 2, reach = 2, width = 1 }] | 10:3 10 10:3 10:2 10:3 11:3 12 | 5: 0=4 1=5 2=13 3=4
one less than the reach, the reach, and one more, from the first group to the second | coincidence = [{ first = 1, second = 2, reach = 3, width = 2 }] | 0 2:2 3:2 4:2 | 4: 2=1 3=1
and back | coincidence = [{ first = 1, second = 2, reach = 3, width = 2 }] | 0:2 2 3 4 | 4: 0=2
more ticks than the reach, one after the other | coincidence = [{ first = 1, second = 1, reach = 2, width = 1 }] | 0 1 2 3 4 5 | 5: 0=4 1=5 3=5 4=4
one cell, wider than all differences | coincidence = [{ first = 1, second = 2, reach = 2, width = 5 }] | 0:3 1:2 2 4611686018695823360:3 | 1: 0=3
markers and photons of other groups count nowhere | coincidence = [{ first = 1, second = 2, reach = 1, width = 1 }] | 4611686018695823358:4 m4611686018695823359:15 4611686018695823359:5 m4611686018695823359:15:1 4611686018695823360:10 4611686018695823360:0 | 3: 2=1
the greatest coincidences: each pair is in its own cell | coincidence = [{ first = 1, second = 2, reach = 1048576, width = 1 }] | 0 5:2 1048576:2 1048577:2 1048581 | 2097153: 0=1 1048571=1 1048572=1 1048581=1 2097152=1
the pairs of the highest level are of bins that are open at the end | correlation = [{ first = 1, second = 1, lags = 2, levels = 3 }] | 0 1 2 3 8 | 6: 0=3 1=2 5=4
no photon meets itself | correlation = [{ first = 1, second = 1, lags = 2, levels = 2 }] | 0 1 3 4 | 4: 0=2 1=1 3=2
two groups | correlation = [{ first = 1, second = 2, lags = 4, levels = 2 }] | 0 1 3:2 4:2 6:2 7:2 8:2 | 8: 1=1 2=2 3=1 6=4 7=2
more bins than there are lags | correlation = [{ first = 1, second = 2, lags = 4, levels = 1 }] | 0:3 1:3 2:3 3:3 4:3 5:3 6:3 | 4: 0=6 1=5 2=4 3=3
photons of one tick, photons of neither group, and markers | correlation = [{ first = 1, second = 2, lags = 2, levels = 1 }] | 1:3 1:3 m2:15 2:4 2:2 3:0 3:3 m3:2 4:18446744073709551615 | 2: 0=3 1=2
the first of a pair is not behind the second | correlation = [{ first = 1, second = 2, lags = 4, levels = 2 }] | 0:2 1:2 2 3 | 8:
photons that are near on the upper levels alone | correlation = [{ first = 1, second = 1, lags = 2, levels = 6 }] | 0 20 40 64 100 | 12: 7=1 9=3 11=3
the greatest times | correlation = [{ first = 1, second = 2, lags = 128, levels = 40 }] | 4611631042845999104 4611686018427387904 4611686018427388004:2 4611686018427388032:3 4611686018695823360:2 | 5120: 99=1 127=1 2815=2 5091=3
the greatest correlation: each pair is in its cells | correlation = [{ first = 1, second = 2, lags = 128, levels = 40 }] | 0 1:2 128:2 35734127902720:2 | 5120: 0=1 127=1 5056=1
";

/// A name, an image, markers, and the column and the row of photons after them.
pub(crate) const PLACES: &str =
    "before any line | image = [{ group = 1, width = 2, height = 2, dwell = 10, line = 1 }] | m0:2 m0:4 m0:8 | 0=- 5=-
a line before any frame | image = [{ group = 1, width = 2, height = 2, dwell = 10, line = 1, frame = 2 }] | m0:1 | 0=- 5=-
the ends of the columns | image = [{ group = 1, width = 3, height = 1, dwell = 10, line = 1 }] | m5:1 | 5=0,0 14=0,0 15=1,0 25=2,0 34=2,0 35=-
a frame and a line in one marker | image = [{ group = 1, width = 2, height = 2, dwell = 10, line = 1, frame = 2 }] | m0:1 m50:1 m100:3 | 100=0,0 119=1,0 120=-
the second line of a frame, and other bits | image = [{ group = 1, width = 2, height = 2, dwell = 10, line = 1, frame = 2 }] | m0:1 m5:2 m10:13 m20:5 m25:12 | 25=0,1 39=1,1
more lines than rows | image = [{ group = 1, width = 2, height = 2, dwell = 10, line = 1, frame = 2 }] | m0:3 m10:1 m20:1 | 20=-
a frame in the middle of a line | image = [{ group = 1, width = 2, height = 2, dwell = 10, line = 1, frame = 2 }] | m0:3 m20:1 m25:2 | 25=0,1 39=1,1
the line behind it | image = [{ group = 1, width = 2, height = 2, dwell = 10, line = 1, frame = 2 }] | m0:3 m20:1 m25:2 m30:1 | 30=0,0
behind a stop | image = [{ group = 1, width = 2, height = 2, dwell = 10, line = 1, frame = 2, stop = 3 }] | m10:3 m12:4 | 12=- 13=-
a stop ends a line and not the frame | image = [{ group = 1, width = 2, height = 2, dwell = 10, line = 1, frame = 2, stop = 3 }] | m10:3 m12:4 m20:1 | 20=0,1
a stop and a line in one marker | image = [{ group = 1, width = 2, height = 2, dwell = 10, line = 1, frame = 2, stop = 3 }] | m10:3 m20:5 | 20=0,1
all three in one marker | image = [{ group = 1, width = 2, height = 2, dwell = 10, line = 1, frame = 2, stop = 3 }] | m10:3 m20:1 m30:7 | 30=0,0 40=1,0
one bit for line and frame | image = [{ group = 1, width = 2, height = 2, dwell = 10, line = 1, frame = 1 }] | m0:1 m10:1 m20:1 | 20=0,0 30=1,0
one bit for line and stop | image = [{ group = 1, width = 2, height = 2, dwell = 10, line = 1, frame = 2, stop = 1 }] | m0:2 m0:1 m10:1 | 10=0,1 20=1,1
one bit for frame and stop | image = [{ group = 1, width = 2, height = 2, dwell = 10, line = 1, frame = 2, stop = 2 }] | m0:3 m10:1 m15:2 | 15=-
one bit for all three | image = [{ group = 1, width = 2, height = 2, dwell = 10, line = 1, frame = 1, stop = 1 }] | m0:1 m10:1 | 10=0,0 20=1,0
no frame bit: the last row | image = [{ group = 1, width = 2, height = 3, dwell = 10, line = 1 }] | m0:1 m10:3 m20:1 | 20=0,2
no frame bit: the row behind it | image = [{ group = 1, width = 2, height = 3, dwell = 10, line = 1 }] | m0:1 m10:3 m20:1 m30:1 | 30=0,0
no frame bit and one row | image = [{ group = 1, width = 2, height = 1, dwell = 10, line = 1, stop = 3 }] | m0:1 m10:1 m20:4 m30:1 | 30=0,0 49=1,0
an even row of a serpentine image | image = [{ group = 1, width = 3, height = 2, dwell = 10, line = 1, serpentine = true }] | m0:1 | 0=0,0 10=1,0 29=2,0 30=-
an odd row of a serpentine image | image = [{ group = 1, width = 3, height = 2, dwell = 10, line = 1, serpentine = true }] | m0:1 m30:1 | 30=2,1 49=1,1 59=0,1 60=-
a frame begins with a row forwards | image = [{ group = 1, width = 2, height = 2, dwell = 10, line = 1, frame = 2, serpentine = true }] | m0:3 m20:3 m40:1 | 40=1,1 50=0,1
";
