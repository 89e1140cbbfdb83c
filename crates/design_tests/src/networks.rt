//! The networks of examples/networks, without their notes; of the trunk the calls alone, without their times.
//!
//! The camera's packets, 30 in 40 ms, are sent each 133 ticks there, and each 134 here, since a gap of sends is rounded up.

pub const AFDX: &str = "tenet 1
link fc1 FC1 S1 rate 125 cap 1538 prop 2 buffer 65536 levels 30 300
link fc2 FC2 S1 rate 125 cap 1538 prop 2 buffer 65536 levels 30 300
link trunk S1 S2 rate 125 cap 1538 prop 2 buffer 65536 levels 50 300
link act S2 ACT rate 125 cap 1538 prop 2 buffer 65536 levels 20 200
link rec S2 REC rate 125 cap 1538 prop 2 buffer 65536 levels 40 400
caller fc1
open att1 route fc1 trunk act contract 160 192 960 100 delay 200 rate
open air1 route fc1 trunk act contract 760 796 7960 220 delay 800 rate
open log1 route fc1 trunk rec contract 3160 3160 3160 1538 delay 3200 rate
send att1 10 200 100
send air1 3 800 220
send log1 2 3200 1538
caller fc2
open att2 route fc2 trunk act contract 160 192 960 100 delay 200 rate
open air2 route fc2 trunk act contract 760 796 7960 220 delay 800 rate
open log2 route fc2 trunk rec contract 3160 3160 3160 1538 delay 3200 rate
send att2 10 200 100
send air2 3 800 220
send log2 2 3200 1538
rounds 6000
tail 0
";

pub const LINE: &str = "tenet 1
link t1 w1 w2 rate 125 cap 1538 prop 1 buffer 65536 levels 60 600
link t2 w2 w3 rate 125 cap 1538 prop 1 buffer 65536 levels 60 600
link t3 w3 w4 rate 125 cap 1538 prop 1 buffer 65536 levels 60 600
link t4 w4 w5 rate 125 cap 1538 prop 1 buffer 65536 levels 60 600
link t5 w5 w6 rate 125 cap 1538 prop 1 buffer 65536 levels 60 600
link t6 w6 w7 rate 125 cap 1538 prop 1 buffer 65536 levels 60 600
link t7 w7 w8 rate 125 cap 1538 prop 1 buffer 65536 levels 60 600
link t8 w8 w9 rate 125 cap 1538 prop 1 buffer 65536 levels 60 600
link t9 w9 w10 rate 125 cap 1538 prop 1 buffer 65536 levels 60 600
link t10 w10 w11 rate 125 cap 1538 prop 1 buffer 65536 levels 60 600
link t11 w11 w12 rate 125 cap 1538 prop 1 buffer 65536 levels 60 600
link ctl w12 plc rate 125 cap 1538 prop 1 buffer 65536 levels 60 600
caller drives
open d1 route t1 t2 t3 t4 t5 t6 t7 t8 t9 t10 t11 ctl contract 100 100 100 84 delay 800 rate
open d2 route t2 t3 t4 t5 t6 t7 t8 t9 t10 t11 ctl contract 100 100 100 84 delay 800 rate
open d3 route t3 t4 t5 t6 t7 t8 t9 t10 t11 ctl contract 100 100 100 84 delay 800 rate
open d4 route t4 t5 t6 t7 t8 t9 t10 t11 ctl contract 100 100 100 84 delay 800 rate
open d5 route t5 t6 t7 t8 t9 t10 t11 ctl contract 100 100 100 84 delay 800 rate
open d6 route t6 t7 t8 t9 t10 t11 ctl contract 100 100 100 84 delay 800 rate
open d7 route t7 t8 t9 t10 t11 ctl contract 100 100 100 84 delay 800 rate
open d8 route t8 t9 t10 t11 ctl contract 100 100 100 84 delay 800 rate
open d9 route t9 t10 t11 ctl contract 100 100 100 84 delay 800 rate
open d10 route t10 t11 ctl contract 100 100 100 84 delay 800 rate
open d11 route t11 ctl contract 100 100 100 84 delay 800 rate
open d12 route ctl contract 100 100 100 84 delay 800 rate
open cam route t3 t4 t5 t6 t7 t8 t9 t10 t11 ctl contract 20 133 3990 1538 delay 4000 rate
send d1 10 100 84
send d2 10 100 84
send d3 10 100 84
send d4 10 100 84
send d5 10 100 84
send d6 10 100 84
send d7 10 100 84
send d8 10 100 84
send d9 10 100 84
send d10 10 100 84
send d11 10 100 84
send d12 10 100 84
send cam 30 134 1538
rounds 4500
tail 0
";

pub const TRUNK: &str = "# tick 100 us
# unit 1 byte
tenet 1
link go east west rate 25 cap 1518 prop 5 buffer 65536 levels 150 1000
link back west east rate 25 cap 1518 prop 5 buffer 65536 levels 150 1000
at 0 open c1go route go contract 200 200 200 218 delay 155 rate
at 0 open c1back route back contract 200 200 200 218 delay 155 rate
at 0 open c2go route go contract 200 200 200 218 delay 155 rate
at 0 open c2back route back contract 200 200 200 218 delay 155 rate
at 0 open mail route go contract 61 400 4000 1518 delay 2000 rate
at 0 send c1go 30 200 218
at 0 send c1back 30 200 218
at 0 send c2go 30 200 218
at 0 send c2back 30 200 218
at 0 send mail 12 400 1518
at 300 open c3go route go contract 200 200 200 218 delay 155 rate
at 300 open c3back route back contract 200 200 200 218 delay 155 rate
at 300 send c3go 30 200 218
at 300 send c3back 30 200 218
at 700 open c4go route go contract 200 200 200 218 delay 155 rate
at 700 open c4back route back contract 200 200 200 218 delay 155 rate
at 700 open c5go route go contract 200 200 200 218 delay 155 rate
at 700 open c5back route back contract 200 200 200 218 delay 155 rate
at 700 send c4go 30 200 218
at 700 send c4back 30 200 218
at 700 send c5go 30 200 218
at 700 send c5back 30 200 218
at 1100 open c6go route go contract 200 200 200 218 delay 155 rate
at 1100 open c6back route back contract 200 200 200 218 delay 155 rate
at 1100 send c6go 30 200 218
at 1100 send c6back 30 200 218
at 1500 open c7go route go contract 200 200 200 218 delay 155 rate
at 1500 open c7back route back contract 200 200 200 218 delay 155 rate
at 1500 open c8go route go contract 200 200 200 218 delay 155 rate
at 1500 open c8back route back contract 200 200 200 218 delay 155 rate
at 1500 send c7go 30 200 218
at 1500 send c7back 30 200 218
at 1500 send c8go 30 200 218
at 1500 send c8back 30 200 218
at 1900 open c9go route go contract 200 200 200 218 delay 155 rate
at 1900 open c9back route back contract 200 200 200 218 delay 155 rate
at 1900 send c9go 30 200 218
at 1900 send c9back 30 200 218
at 2300 open c10go route go contract 200 200 200 218 delay 155 rate
at 2300 open c10back route back contract 200 200 200 218 delay 155 rate
at 2300 send c10go 30 200 218
at 2300 send c10back 30 200 218
at 6100 close c1go
at 6100 close c1back
at 6200 close c2go
at 6200 close c2back
at 6300 close c3go
at 6300 close c3back
at 6400 close c4go
at 6400 close c4back
at 6500 close c5go
at 6500 close c5back
at 7000 open late route go contract 200 200 200 218 delay 155 rate
at 7000 send late 10 200 218
at 11000 end
";

pub const SHARED: &str = "# tick 10 us
# unit 1 byte
tenet 5
link line office exchange rate 100 cap 1538 prop 5 buffer 65536 best 64 levels 100 500
group voice
group video
quota line voice buffer 16384 levels 20 100
quota line video buffer 32768 levels 40 300
caller streams
pour line 200 100 1538
caller voice group voice
open phone1 route line contract 2000 2000 2000 218 delay 499 rate
open phone2 route line contract 2000 2000 2000 218 delay 499 rate
open phone3 route line contract 2000 2000 2000 218 delay 499 rate
open phone4 route line contract 2000 2000 2000 218 delay 499 rate
send phone1 10 2000 218
send phone2 10 2000 218
send phone3 10 2000 218
send phone4 10 2000 218
caller video group video
open camera route line contract 20 133 3990 1538 delay 3999 rate
send camera 30 134 1538
rounds 22000
tail 0
";
